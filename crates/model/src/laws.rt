ghost use Rattle.model.specs.Laws.{AlwaysHeld, AlwaysListed, AlwaysCounted, AlwaysAlike, AlwaysFollows, AlwaysMoved, AlwaysEnlarged, AlwaysFair};

/// What is held is what the last accepted take or cancel that covers a key number says.
pub fn held<K, V>()
    ensures { AlwaysHeld K V }
{}

/// Listing: while nothing is changed, `at` gives the pairs held, each once.
pub fn listing<K, V>()
    ensures { AlwaysListed K V }
{}

/// Counts: what is held under a value and what was cancelled of it are what was taken; the tables have as many entries with it.
pub fn counts<K, V>()
    ensures { AlwaysCounted K V }
{}

/// Alike: equal codings reply alike, whatever the permutation and the tables, until a take finds no room.
pub fn alike<K, V>()
    ensures replies { AlwaysAlike K V }
    ensures follows { AlwaysFollows K V }
{}

/// Enlarging moves each slot's entries into two slots, by the quotient's top bit.
pub fn enlarging<K, V>()
    ensures moves { AlwaysMoved K V }
    ensures after { AlwaysEnlarged K V }
{}

/// What makes the machine a fair judge.
pub fn fair<K, V>()
    ensures { AlwaysFair K V }
{}
