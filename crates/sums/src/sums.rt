//! The record of sums: it always balances, and each reading's sum keeps its limit.
ghost use Rattle.std.specs.Prelude.{◌≡◌, ℕ, ◌<◌, IfNone, IfOk, Some, None, Err, MatchOption, MatchResult};
ghost use Rattle.entries.specs.Pairs.{Pairs, most_quarters, no_pairs, updated, without};
ghost use Rattle.sums.specs.declared.totals.Totals.{Totals as Numbers};
ghost use Rattle.sums.specs.declared.sums.ReplaceRefusal.TheVariants.{NotHeld, Over};
ghost use Rattle.sums.specs.Year.{totals as year_totals};
ghost use Rattle.sums.specs.Sums.{Balanced, Limited, none, both, room, with_entry, past, Added, Before, NeverAdded, PartOf};

use crate::totals::{Part, SUM_LIMIT, Totals};
use entries::entry::Entry;
use entries::readings::{Mark, Readings};

/// Sums over entries. They balance, and each reading's sum is within its limit, whatever was added.
#[derive(Clone, Copy)]
pub struct Sums {
    totals: Totals,
    ghost balanced: { Balanced totals },
    ghost limited: { Limited totals },
}

/// Why an entry cannot take the place of another in sums.
#[derive(Clone, Copy, PartialEq, Eq, Debug)]
pub enum ReplaceRefusal {
    /// The other entry was never added.
    NotHeld,
    /// The sum at this mark, the lowest such, would pass its limit.
    Over(Mark),
}

impl From<Mark> for ReplaceRefusal {
    ghost from_gives = { λ mark refusal. refusal ≡ Over mark };

    fn from(mark: Mark) -> ReplaceRefusal {
        ReplaceRefusal::Over(mark)
    }
}

impl Sums {
    /// The sums of no entry.
    #[tactic(auto, using(crate::proofs::Years::totals_none))]
    pub fn new() -> Sums
        ensures none { result.totals ≡ none }
        ensures year { result.totals ≡ year_totals no_pairs }
    {
        Sums {
            totals: Totals::default(),
        }
    }

    /// The sums as plain numbers.
    pub fn totals(&self) -> Totals
        ensures { result ≡ self.now.totals }
    {
        self.totals
    }

    // The lowest mark whose sum would pass its limit with one entry more.
    #[tactic(auto, unfolding(crate::specs::Sums::past, entries::specs::Marks::lowest_over))]
    fn past_limit(self, e: Entry) -> Option<Mark>
        ensures mark { result ≡ past self.totals e }
        ensures within { IfNone result (Limited (with_entry self.totals e)) }
    {
        e.readings.lowest_over(self.room())
    }

    /// The sums with one entry more, or the lowest mark whose sum would pass its limit.
    /// Over the sums of a year: those of the year with the entry at a quarter that had none.
    #[tactic(auto, using(crate::proofs::Years::totals_added))]
    pub fn plus(self, e: Entry) -> Result<Sums, Mark>
        ensures added { MatchResult result (λ s. Added self.totals e s.totals) (λ m. past self.totals e ≡ Some m) }
        ensures year { (p : Pairs) (q : ℕ) → self.totals ≡ year_totals p → q < most_quarters → p q ≡ None → IfOk result (λ s. s.totals ≡ year_totals (updated p q e)) }
    {
        match self.past_limit(e) {
            Some(mark) => Err(mark),
            None => Ok(self.with(Part::of(e))),
        }
    }

    /// The sums to which the entry was added to make these, or `None` where it was added to none.
    /// Over the sums of a year: those of the year without the entry.
    pub fn minus(self, e: Entry) -> Option<Sums>
        ensures removed { MatchOption result (NeverAdded e self.totals) (λ s. Before e self.totals s.totals) }
        ensures year { (p : Pairs) (q : ℕ) → self.totals ≡ year_totals p → q < most_quarters → p q ≡ Some e → MatchOption result ⊥ (λ s. s.totals ≡ year_totals (without p q)) }
    {
        self.without(Part::of(e))
    }

    /// The sums with `new` in the place of `old`, judged without `old`.
    /// Over the sums of a year: those of the year with `new` at the quarter where `old` stood.
    pub fn replace(self, old: Entry, new: Entry) -> Result<Sums, ReplaceRefusal>
        ensures held { (u : Numbers) → Before old self.totals u → MatchResult result (λ s. Added u new s.totals) (λ x. elim x [ NotHeld ↦ ⊥ | Over m ↦ past u new ≡ Some m ]) }
        ensures absent { NeverAdded old self.totals → result ≡ Err NotHeld }
        ensures year { (p : Pairs) (q : ℕ) → self.totals ≡ year_totals p → q < most_quarters → p q ≡ Some old → MatchResult result (λ s. (past (year_totals (without p q)) new ≡ None) × (s.totals ≡ year_totals (updated p q new))) (λ x. elim x [ NotHeld ↦ ⊥ | Over m ↦ past (year_totals (without p q)) new ≡ Some m ]) }
    {
        let rest = self.minus(old).ok_or(ReplaceRefusal::NotHeld)?;
        Ok(rest.plus(new)?)
    }

    // The sums with the part, where no reading's sum passes its limit.
    // Written out here, in `without` and in `room`: `+` and `-` of the records would ask every caller for thirteen limits, and a function over them that takes
    // what to do at each would have to say of each that it may be done.
    fn with(self, part: Part) -> Sums
        requires { Limited (both self.totals part.totals) }
        ensures { result.totals ≡ both self.totals part.totals }
    {
        let (t, p) = (self.totals, part.totals);
        Sums {
            totals: Totals {
                readings: Readings {
                    import: t.readings.import + p.readings.import,
                    feed_in: t.readings.feed_in + p.readings.feed_in,
                    drawn: t.readings.drawn + p.readings.drawn,
                    given: t.readings.given + p.readings.given,
                    storage_drawn: t.readings.storage_drawn + p.readings.storage_drawn,
                    storage_given: t.readings.storage_given + p.readings.storage_given,
                },
                grid_draw: t.grid_draw + p.grid_draw,
                plant_draw: t.plant_draw + p.plant_draw,
                stored_feed_in: t.stored_feed_in + p.stored_feed_in,
                paid_direct: t.paid_direct + p.paid_direct,
                zero_direct: t.zero_direct + p.zero_direct,
                paid_stored: t.paid_stored + p.paid_stored,
                zero_stored: t.zero_stored + p.zero_stored,
            },
        }
    }

    // What is left without the part, if these sums have it. `minus` adds to this what it means over a year.
    fn without(self, part: Part) -> Option<Sums>
        ensures { MatchOption result (¬ PartOf part.totals self.totals) (λ s. both s.totals part.totals ≡ self.totals) }
    {
        let (t, p) = (self.totals, part.totals);
        if !t.has_part(p) {
            return None;
        }
        Some(Sums {
            totals: Totals {
                readings: Readings {
                    import: t.readings.import - p.readings.import,
                    feed_in: t.readings.feed_in - p.readings.feed_in,
                    drawn: t.readings.drawn - p.readings.drawn,
                    given: t.readings.given - p.readings.given,
                    storage_drawn: t.readings.storage_drawn - p.readings.storage_drawn,
                    storage_given: t.readings.storage_given - p.readings.storage_given,
                },
                grid_draw: t.grid_draw - p.grid_draw,
                plant_draw: t.plant_draw - p.plant_draw,
                stored_feed_in: t.stored_feed_in - p.stored_feed_in,
                paid_direct: t.paid_direct - p.paid_direct,
                zero_direct: t.zero_direct - p.zero_direct,
                paid_stored: t.paid_stored - p.paid_stored,
                zero_stored: t.zero_stored - p.zero_stored,
            },
        })
    }

    // How much more of each reading the sums can take.
    fn room(self) -> Readings
        ensures { result ≡ room self.totals.readings }
    {
        let r = self.totals.readings;
        Readings {
            import: SUM_LIMIT - r.import,
            feed_in: SUM_LIMIT - r.feed_in,
            drawn: SUM_LIMIT - r.drawn,
            given: SUM_LIMIT - r.given,
            storage_drawn: SUM_LIMIT - r.storage_drawn,
            storage_given: SUM_LIMIT - r.storage_given,
        }
    }
}
