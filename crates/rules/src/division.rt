// An amount over the sum of the weights, for both sharing rules.
ghost use Rattle.std.specs.Prelude.{◌≡◌, ◌≤◌, pos, ◌-ℤ◌, ◌*ℤ◌};
ghost use Rattle.rules.specs.SharingRules.{truncated, cut};

use amounts::rounding::toward_zero;

// The amount for each unit of the total, with its fraction dropped, and what that rate leaves; where the total is 0, so is the
// rate.
#[derive(Clone, Copy)]
pub(crate) struct Division {
    amount: i64,
    total: u32,
    rate: i64,
    rest: i64,
    ghost total_small: { total ≤ 64000000 },
    ghost rate_is: { rate ≡ truncated amount total },
    ghost rest_is: { rest ≡ amount -ℤ truncated amount total *ℤ pos total },
}

// A part is a plain number with a bound asked, and no type: a loop asks one division about a new part at each turn.
impl Division {
    // An amount over a sum of weights.
    pub(crate) fn new(amount: i64, total: u32) -> Division
        requires { total ≤ 64000000 }
        ensures amount { result.amount ≡ amount }
        ensures total { result.total ≡ total }
    {
        let rate = toward_zero(amount, i64::from(total)).unwrap_or(0);
        let rest = amount - rate * i64::from(total);
        Division {
            amount,
            total,
            rate,
            rest,
        }
    }

    // What the rate gives a part of the total.
    #[tactic(auto, using(crate::proofs::Fits::part_fits, crate::proofs::Fits::part_is))]
    pub(crate) fn by_rate(self, part: u32) -> i64
        requires { part ≤ self.total }
        ensures { result ≡ truncated self.amount self.total *ℤ pos part }
    {
        self.rate * i64::from(part)
    }

    // What is a part's of the rest, with its fraction dropped.
    #[tactic(auto, using(crate::proofs::Fits::rests_fit))]
    fn by_rest(self, part: u32) -> i64
        requires { part ≤ self.total }
        ensures { result ≡ truncated (self.rest *ℤ pos part) self.total }
    {
        let rests = self.rest * i64::from(part);
        toward_zero(rests, i64::from(self.total)).unwrap_or(0)
    }

    // What is a part's of the amount, with its fraction dropped: by rate and rest, so that no product leaves 64 bits.
    #[tactic(auto, using(crate::proofs::Fits::split_fits, crate::proofs::Fits::split_is))]
    pub(crate) fn by_rate_and_rest(self, part: u32) -> i64
        requires { part ≤ self.total }
        ensures { result ≡ cut self.amount self.total part }
    {
        self.by_rate(part) + self.by_rest(part)
    }
}
