ghost use Rattle.std.specs.Prelude.{◌≡◌};
ghost use Rattle.expected.specs.Kinds.{group as group_of, limit as limit_of};

use crate::kind::Kind;
use blocks::{PackedTable, PlainTable};
use table::table::Table;

/// A table whose words can be looked at.
pub trait Shown: Table {
    /// Its kind.
    fn kind() -> Kind
        ensures grouped { group_of result ≡ Self.group }
        ensures limited { limit_of result ≡ Self.limit };

    /// Its words.
    fn shown(&self) -> &[u64]
        ensures value { result.now ≡ Self.words self.now };
}

impl Shown for PlainTable {
    fn kind() -> Kind {
        Kind::Plain
    }

    fn shown(&self) -> &[u64] {
        PlainTable::words(self)
    }
}

impl Shown for PackedTable {
    fn kind() -> Kind {
        Kind::Packed
    }

    fn shown(&self) -> &[u64] {
        PackedTable::words(self)
    }
}
