//! Rows that stand in the order of the quarters: row q is that of quarter q.
ghost use Rattle.std.specs.Prelude.{◌≡◌, ◌+◌, ◌^◌, ◌<◌, OnSome};
ghost use Rattle.std.specs.List.{slice_get};

/// The row of a quarter, if there is one; then the next quarter can be named too.
#[tactic(auto, using(std::proofs::lemmas::Option::gets))]
pub(crate) fn row_at<T: Copy>(rows: &[T], quarter: u64) -> Option<T>
    ensures row { result ≡ slice_get rows.now quarter }
    ensures next { OnSome result (quarter + 1 < 2 ^ 64) }
{
    rows.get(quarter as usize).copied()
}
