//! The series of a site, from which a fetch makes an entry.
ghost use Rattle.std.specs.Prelude.{◌≡◌};
ghost use Rattle.book.specs.Sources.{storage_reading, gathered_from};

use crate::refusal::{Source, SourceFault};
use entries::case::Case;
use entries::entry::Entry;
use entries::readings::Readings;
use series::series::{Meter, ValueList};

/// The series of a site: its value list, Z1 at the grid connection, Z2 at storage and charge point, and Z3 at the storage alone.
#[derive(Drop)]
pub struct Sources<'a, V, A, B, C> {
    pub values: &'a V,
    pub first: &'a A,
    pub second: &'a B,
    pub third: &'a C,
}

impl<'a, V: ValueList, A: Meter, B: Meter, C: Meter> Sources<'a, V, A, B, C> {
    /// The entry that the series make at a quarter, or the first fault among them. Z3 is asked only in case 4.
    pub fn gather(&self, case: Case, quarter: u64) -> Result<Entry, SourceFault>
        ensures { result ≡ gathered_from V.ValueList.own A.Meter.own B.Meter.own C.Meter.own case self.now quarter }
    {
        let value = Source::Values.asked(self.values.value(quarter))?;
        let (import, feed_in) = Source::First.asked(self.first.read(quarter))?;
        let (drawn, given) = Source::Second.asked(self.second.read(quarter))?;
        let (storage_drawn, storage_given) = self.storage_alone(case, quarter)?;
        Ok(Entry {
            readings: Readings {
                import: u64::from(import),
                feed_in: u64::from(feed_in),
                drawn: u64::from(drawn),
                given: u64::from(given),
                storage_drawn: u64::from(storage_drawn),
                storage_given: u64::from(storage_given),
            },
            value: u64::from(value),
        })
    }

    // What the storage's own meter reads, and nothing where there is none.
    fn storage_alone(&self, case: Case, quarter: u64) -> Result<(u32, u32), SourceFault>
        ensures { result ≡ storage_reading case (C.Meter.readings self.now.third.now quarter) }
    {
        match case {
            Case::Storage | Case::ChargePoint | Case::Both => Ok((0, 0)),
            Case::BothMetered => Source::Third.asked(self.third.read(quarter)),
        }
    }
}
