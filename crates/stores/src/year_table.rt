//! The year table: a store with a place for each quarter.
ghost use Rattle.std.specs.Prelude.{◌≡◌, ◌≤◌, None, vec_len};
ghost use Rattle.entries.specs.Pairs.{most_quarters, tally};
ghost use Rattle.stores.specs.Places.{in_places};
ghost use Rattle.std.proofs.Common.{subst};
ghost use Rattle.std.proofs.lemmas.List.{get_or_past};
ghost use Rattle.stores.specs.StoreLaws.{tally_le};

use crate::store::{PutRefusal, Store};
use entries::entry::Entry;

mod making;

/// A year table: a row of places, the first for quarter 0, each with the entry of its quarter or empty.
/// Its reach and its capacity are the number of its places, so it is never full.
#[derive(Drop)]
pub struct YearTable {
    places: Vec<Option<Entry>>,
    // How many places have an entry.
    standing: u64,
    ghost counted: { standing ≡ tally (in_places places.items) (vec_len places) },
    ghost sized: { vec_len places ≤ most_quarters },
}

impl Store for YearTable {
    ghost reach = { λ t. vec_len t.places };

    ghost capacity = { λ t. vec_len t.places };

    ghost pairs = { λ t. in_places t.places.items };

    ghost beyond = { λ s quarter h. get_or_past s.places.items quarter None (subst (λ n. n ≤ quarter) s.places.ok.0 h) };

    ghost fitting = { λ s. tally_le (in_places s.places.items) (vec_len s.places) };

    fn clear(&mut self) {
        self.places.fill(None);
        self.standing = 0;
    }

    fn look(&self, quarter: u64) -> Option<Entry> {
        self.places.get(quarter as usize).copied().flatten()
    }

    #[tactic(auto, using(crate::proofs::Places::entering))]
    fn put(&mut self, quarter: u64, entry: Entry) -> Result<(), PutRefusal> {
        if quarter >= self.reach() {
            return Err(PutRefusal::Quarter);
        }
        if self.places[quarter as usize].replace(entry).is_none() {
            self.standing += 1;
        }
        Ok(())
    }

    fn count(&self) -> u64 {
        self.standing
    }

    fn reach(&self) -> u64 {
        self.places.len() as u64
    }

    fn capacity(&self) -> u64 {
        self.places.len() as u64
    }
}
