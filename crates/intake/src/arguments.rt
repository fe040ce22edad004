//! The arguments among the words of a command line.
ghost use Rattle.std.specs.Prelude.{◌≡◌, ◌≤◌};
ghost use Rattle.std.specs.Iterator.{at_most};
ghost use Rattle.std.specs.Vec.Iter.{into_iter_items, into_iter_len};
ghost use Rattle.intake.specs.Arguments.{Behind, Takes};

use arrivals::layout::{Layout, NoLayout};
use std::env::Args;

/// One argument: the layout that is asked for, or any other word.
#[derive(Debug, Drop)]
pub enum Argument {
    Layout(Layout),
    Other(String),
}

/// The arguments that some words make, in their order: `--layout` and the word behind it are one.
#[derive(Drop)]
pub struct Arguments {
    pub words: Args,
}

impl Arguments {
    /// The arguments that these words make.
    pub fn new(words: Args) -> Arguments
        ensures words { into_iter_items result.words ≡ into_iter_items words }
    {
        Arguments { words }
    }
}

/// The layout that the word behind `--layout` names.
fn layout_behind(words: &mut Args) -> Result<Argument, NoLayout>
    ensures value { Behind (into_iter_items words.old) result (into_iter_items words.new) }
    ensures left { into_iter_len words.new ≤ into_iter_len words.old }
{
    let word = words.next().ok_or(NoLayout)?;
    let layout = word.as_str().parse::<Layout>()?;
    Ok(Argument::Layout(layout))
}

impl Iterator for Arguments {
    type Item = Result<Argument, NoLayout>;

    ghost next_gives = { λ s r t. Takes (into_iter_items s.words) r (into_iter_items t.words) };

    ghost remaining = { λ s. at_most (into_iter_len s.words) };

    fn next(&mut self) -> Option<Result<Argument, NoLayout>> {
        let word = self.words.next()?;
        if word.as_str() == "--layout" {
            Some(layout_behind(&mut self.words))
        } else {
            Some(Ok(Argument::Other(word)))
        }
    }
}
