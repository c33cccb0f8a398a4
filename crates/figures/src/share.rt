//! A part's share of an amount.
ghost use Rattle.std.specs.Prelude.{◌≡◌, ◌/◌, ◌≤◌};
ghost use Rattle.sums.specs.Sums.{sum_limit};
ghost use Rattle.figures.specs.Figures.{share, remainder};

/// The share of an amount that a part of a whole has, as `part * amount / whole`.
#[derive(Clone, Copy)]
pub(crate) struct Share {
    part: u64,
    amount: u64,
    whole: u64,
    ghost part_within: { part ≤ whole },
    ghost whole_limit: { whole ≤ sum_limit },
    ghost amount_limit: { amount ≤ sum_limit },
}

/// How often `divisor` goes into an amount, and 0 where it is 0.
pub(crate) fn divide(amount: u64, divisor: u64) -> u64
    ensures { result ≡ amount / divisor }
{
    amount.checked_div(divisor).unwrap_or(0)
}

impl Share {
    pub(crate) fn new(part: u64, amount: u64, whole: u64) -> Share
        requires part_within { part ≤ whole }
        requires whole_limit { whole ≤ sum_limit }
        requires amount_limit { amount ≤ sum_limit }
        ensures part { result.part ≡ part }
        ensures amount { result.amount ≡ amount }
        ensures whole { result.whole ≡ whole }
    {
        Share {
            part,
            amount,
            whole,
        }
    }

    /// The share, rounded down.
    #[tactic(auto, unfolding(crate::specs::Figures::share))]
    pub(crate) fn quotient(self) -> u64
        ensures value { result ≡ share self.part self.amount self.whole }
        ensures bound { result ≤ self.amount }
    {
        divide(self.part * self.amount, self.whole)
    }

    /// What that rounding leaves.
    #[tactic(auto, unfolding(crate::specs::Figures::remainder))]
    pub(crate) fn remainder(self) -> u64
        ensures value { result ≡ remainder self.part self.amount self.whole }
        ensures bound { result ≤ self.whole }
    {
        (self.part * self.amount)
            .checked_rem(self.whole)
            .unwrap_or(0)
    }
}
