//! What every series, every meter and every value list promises.
ghost use Rattle.std.specs.Prelude.{◌≡◌, ℕ, Option};
ghost use Rattle.std.specs.Result.{result_err};
ghost use Rattle.series.specs.declared.fault.Fault.{Fault};
ghost use Rattle.series.specs.Faults.{FaultFor};
ghost use Rattle.series.specs.Limits.{Reading, Value, ReadingWithin, ValueWithin};

use crate::fault::Fault;

// Each make has an impl and proves the laws: an impl for every `Meter` would overlap with that for every `ValueList`, and a default of a law knows no make.
/// For each quarter an item or a fault. Asking changes nothing.
pub trait Series {
    // At each quarter: no fault, so that the item is present, or the fault in its place.
    ghost faults: { Self → ℕ → Option Fault };

    /// The fault at a quarter, or none where the item is present.
    fn fault_at(&self, quarter: u64) -> Option<Fault>
        ensures { result ≡ faults self.now quarter };

    // A fault names the quarter that was asked for, and its depth is at most 255.
    ghost asked: { (s : Self) (q : ℕ) → FaultFor q (faults s q) };
}

/// A series of energies: what was taken and what was given in each quarter, in Wh.
pub trait Meter: Series {
    // At each quarter: taken and given energy, or the fault.
    ghost readings: { Self → ℕ → Reading };

    /// The energy taken and the energy given in a quarter.
    // A pair of two u32 and no struct: a meter answers both energies together.
    fn read(&self, quarter: u64) -> Result<(u32, u32), Fault>
        ensures { result ≡ readings self.now quarter };

    // The faults of the series are the faults of the readings.
    ghost agrees: { (m : Self) (q : ℕ) → result_err (readings m q) ≡ Self.Series.faults m q };

    // Both energies are at most 1,000,000 Wh.
    ghost within: { (m : Self) (q : ℕ) → ReadingWithin (readings m q) };
}

/// A series of values, in hundredths of a cent per kWh.
pub trait ValueList: Series {
    // At each quarter: the value, or the fault.
    ghost values: { Self → ℕ → Value };

    /// The value of a quarter.
    fn value(&self, quarter: u64) -> Result<u32, Fault>
        ensures { result ≡ values self.now quarter };

    // The faults of the series are the faults of the values.
    ghost agrees: { (l : Self) (q : ℕ) → result_err (values l q) ≡ Self.Series.faults l q };

    // A value is at most 100,000.
    ghost within: { (l : Self) (q : ℕ) → ValueWithin (values l q) };
}
