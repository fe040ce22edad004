ghost use Rattle.blocks.specs.Means.{means, items, size};
ghost use Rattle.blocks.specs.Standing.{well_formed};

use crate::kind::Blocks;
use crate::state::BlockTable;
use table::refusal::TableRefusal;
use table::table::Table;

impl<L: Blocks> Table for BlockTable<L> {
    ghost sound = { λ t. Unit {0} };

    ghost means = { means };

    ghost words = { items };

    ghost fits = { λ t. L.layout.fits (size t) };

    ghost group = { L.layout.S };

    ghost limit = { L.layout.C };

    ghost grouped = { L.grouped };

    ghost limited = { L.limited };

    ghost fitting = { λ t k v b h. L.fitting (size t) k v b h };

    ghost well = { λ t s k v b slots e. well_formed t k v b slots e };

    fn form(&mut self, k: u32, v: u32, b: u32) -> Result<(), TableRefusal> {
        BlockTable::form(self, k, v, b)
    }

    fn clear(&mut self) {
        BlockTable::clear(self)
    }

    fn add(&mut self, slot: u64, quotient: u64, value: u64) -> Result<(), TableRefusal> {
        BlockTable::add(self, slot, quotient, value)
    }

    fn remove(&mut self, slot: u64, quotient: u64) -> Result<u64, TableRefusal> {
        BlockTable::remove(self, slot, quotient)
    }

    fn find(&self, slot: u64, quotient: u64) -> Result<u64, TableRefusal> {
        BlockTable::find(self, slot, quotient)
    }

    fn size(&self, slot: u64) -> Result<u64, TableRefusal> {
        BlockTable::size(self, slot)
    }

    fn entry(&self, slot: u64, i: u64) -> Result<(u64, u64), TableRefusal> {
        BlockTable::entry(self, slot, i)
    }

    fn fits(&self, k: u32, v: u32, b: u32) -> bool {
        BlockTable::fits(self, k, v, b)
    }

    fn group(&self) -> u64 {
        L::slots()
    }

    fn limit(&self) -> u64 {
        L::limit()
    }

    fn load(&self, slot: u64) -> Result<u64, TableRefusal> {
        BlockTable::load(self, slot)
    }

    fn admits(
        &self,
        slot: u64,
        quotient: u64,
        value: u64,
        earlier: u64,
    ) -> Result<(), TableRefusal> {
        BlockTable::admits(self, slot, quotient, value, earlier)
    }
}
