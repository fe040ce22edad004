ghost use Rattle.std.specs.Prelude.{◌≡◌, MatchResult, length, slice_range, vec_items};
ghost use Rattle.blocks.specs.Means.{items};
ghost use Rattle.blocks.specs.Slots.{SlotRead};
ghost use Rattle.blocks.specs.Spots.{Reached, Refused, There};

use crate::kind::Blocks;
use crate::slot::Slot;
use crate::state::BlockTable;
use std::marker::PhantomData;
use table::refusal::TableRefusal;
use table::shape::Shape;

/// Where a slot stands: the words of its group's block, from `start` to `end`, and its number in the group.
#[derive(Clone, Copy)]
pub(crate) struct Spot {
    pub shape: Shape,
    pub start: usize,
    pub end: usize,
    pub slot: u64,
}

impl<L: Blocks> BlockTable<L> {
    /// Where a slot stands, if the table is formed and slot, quotient and value are in range; a call without a quotient or a value asks for 0, which always is.
    pub(crate) fn spot(&self, slot: u64, quotient: u64, value: u64) -> Result<Spot, TableRefusal>
        ensures value { MatchResult result (Reached L.layout (length (items self.now)) self.now.shape slot quotient value) (Refused self.now.shape slot quotient value) }
    {
        let shape = self.shape.ok_or(TableRefusal::Unformed)?;
        if !shape.allows(slot, quotient, value) {
            return Err(TableRefusal::OutOfRange);
        }
        let width = L::width(shape);
        let start = (slot / L::slots()) as usize * width;
        Ok(Spot {
            shape,
            start,
            end: start + width,
            slot: slot % L::slots(),
        })
    }

    /// The slot that stands there, to be read.
    pub(crate) fn slot_at(&self, at: Spot) -> Slot<'_, L>
        requires { There L.layout (length (items self.now)) self.now.shape at }
        ensures block { result.block.now ≡ slice_range (items self.now) at.start at.end }
        ensures shape { result.shape ≡ at.shape }
        ensures slot { result.slot ≡ at.slot }
    {
        Slot {
            block: &self.words[at.start..at.end],
            shape: at.shape,
            slot: at.slot,
            kind: PhantomData,
        }
    }

    /// A slot to be read, if the table is formed and slot, quotient and value are in range.
    pub(crate) fn slot(
        &self,
        slot: u64,
        quotient: u64,
        value: u64,
    ) -> Result<Slot<'_, L>, TableRefusal>
        ensures value { MatchResult result (SlotRead (items self.now) self.now.shape slot quotient value) (Refused self.now.shape slot quotient value) }
    {
        let at = self.spot(slot, quotient, value)?;
        Ok(self.slot_at(at))
    }
}
