//! Questions to any store, whatever its make.
ghost use Rattle.std.specs.Prelude.{◌≡◌, ◌+◌, ◌<◌, true, is_some, nat_le};
ghost use Rattle.entries.specs.Pairs.{tally};

use crate::store::Store;

/// Whether the store reaches over so many quarters: a year may begin only where it does.
pub fn covers<S: Store>(store: &S, quarters: u64) -> bool
    ensures { result ≡ nat_le quarters (S.reach store.now) }
{
    quarters <= store.reach()
}

/// Whether the quarter has a pair; if it has, it is below the reach.
pub fn stands<S: Store>(store: &S, quarter: u64) -> bool
    ensures value { result ≡ is_some (S.pairs store.now quarter) }
    ensures below { result ≡ true → quarter < S.reach store.now }
{
    store.look(quarter).is_some()
}

/// How many more pairs the store has room for.
pub fn spare<S: Store>(store: &S) -> u64
    ensures { result + tally (S.pairs store.now) (S.reach store.now) ≡ S.capacity store.now }
{
    store.capacity() - store.count()
}
