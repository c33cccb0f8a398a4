//! Takes a year's entries to its sums.
ghost use Rattle.std.specs.Prelude.{◌≡◌, true, IfOk, Decides, MatchResult};
ghost use Rattle.figures.specs.Laws.{ImportEven};
ghost use Rattle.sums.specs.Year.{totals as year_totals};
ghost use Rattle.worked_years.specs.Postings.{pairs_of, list_totals, apart, StopsAt, all_within};

use crate::years::Posting;
use entries::case::Case;
use entries::readings::Mark;
use figures::figures::Figures;
use sums::sums::Sums;

/// The sums of the entries, or the mark whose sum would pass its limit first.
#[tactic(auto, using(crate::proofs::Lists::sum_over_take))]
pub(crate) fn sum_up(postings: &[Posting]) -> Result<Sums, Mark>
    ensures summed { MatchResult result (λ s. s.totals ≡ list_totals postings.now) (λ m. StopsAt postings.now m) }
    ensures year { apart postings.now ≡ true → IfOk result (λ s. s.totals ≡ year_totals (pairs_of postings.now)) }
{
    let mut sums = Sums::new();
    for posting in postings {
        sums = sums.plus(posting.entry)?;
    }
    Ok(sums)
}

/// Whether every entry keeps the limits of the case.
pub(crate) fn all_fit(case: Case, postings: &[Posting]) -> bool
    ensures { result ≡ all_within case postings.now }
{
    postings
        .iter()
        .all(|posting| posting.entry.within_limits(case))
}

/// Whether the import is levied, nettable or lost to the last Wh.
pub(crate) fn import_is_even(import: u64, figures: Figures) -> bool
    ensures { Decides result (ImportEven import figures) }
{
    i128::from(import)
        == i128::from(figures.levied) + i128::from(figures.nettable) + i128::from(figures.loss)
}
