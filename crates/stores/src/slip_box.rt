//! The slip box: a store with room for some entries, of any quarters.
ghost use Rattle.std.specs.Prelude.{◌≡◌, ◌==◌, position, ◌≤◌, true, vec_len, vec_capacity};
ghost use Rattle.entries.specs.Pairs.{most_quarters};
ghost use Rattle.stores.specs.declared.slip.Slip.{Slip};
ghost use Rattle.stores.specs.Slips.{on_slips, one_each};
ghost use Rattle.stores.specs.StoreLaws.{once_from_test, slips_beyond, slips_fit};
ghost use Rattle.std.proofs.Common.{subst};

use crate::slip::Slip;
use crate::store::{MOST_QUARTERS, PutRefusal, Store};
use entries::entry::Entry;

mod making;

/// A slip box: so many slips as it was made with, each free or written with a quarter and its entry.
/// A quarter is on one slip at most. Its reach is 35,136 and its capacity its number of slips.
#[derive(Drop)]
pub struct SlipBox {
    // The written slips, in any order; the free ones are room that is reserved behind them. A map would take memory at a put.
    written: Vec<Slip>,
    // The number of slips, written and free.
    slips: u64,
    ghost once: { one_each most_quarters written.items ≡ true },
    ghost within: { vec_len written ≤ slips },
    ghost reserved: { slips ≤ vec_capacity written },
    ghost sized: { slips ≤ most_quarters },
}

impl SlipBox {
    // Where the first slip of a quarter lies, if there is one.
    fn find(&self, quarter: u64) -> Option<usize>
        ensures { result ≡ position (λ (s : Slip). s.quarter == quarter) self.now.written.items }
    {
        self.written.iter().position(|slip| slip.quarter == quarter)
    }
}

impl Store for SlipBox {
    ghost reach = { λ b. most_quarters };

    ghost capacity = { λ b. b.slips };

    ghost pairs = { λ b. on_slips b.written.items };

    ghost beyond = { λ s quarter h. slips_beyond most_quarters s.written.items quarter (once_from_test most_quarters s.written.items s.once) h };

    ghost fitting = { λ s. slips_fit most_quarters s.written.items s.slips (once_from_test most_quarters s.written.items s.once) (subst (λ n. n ≤ s.slips) s.written.ok.0 s.within) };

    fn clear(&mut self) {
        self.written.clear();
    }

    #[tactic(auto, using(crate::proofs::Slips::slips_at))]
    fn look(&self, quarter: u64) -> Option<Entry> {
        let at = self.find(quarter)?;
        Some(self.written[at].entry)
    }

    #[tactic(auto, using(crate::proofs::Slips::putting))]
    fn put(&mut self, quarter: u64, entry: Entry) -> Result<(), PutRefusal> {
        if quarter >= self.reach() {
            return Err(PutRefusal::Quarter);
        }
        let slip = Slip { quarter, entry };
        match self.find(quarter) {
            Some(at) => self.written[at] = slip,
            None if self.count() == self.slips => return Err(PutRefusal::Full),
            None => self.written.push_reserved(slip),
        }
        Ok(())
    }

    #[tactic(auto, using(crate::proofs::Slips::slips_counted))]
    fn count(&self) -> u64 {
        self.written.len() as u64
    }

    fn reach(&self) -> u64 {
        MOST_QUARTERS
    }

    fn capacity(&self) -> u64 {
        self.slips
    }
}
