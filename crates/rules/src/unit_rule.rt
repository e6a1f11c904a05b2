// The unit rule: one rate for each unit of weight.
ghost use Rattle.std.specs.Prelude.{◌≡◌, ◌<◌, length, ℤ, pos, ◌*ℤ◌, Ok, sum};
ghost use Rattle.std.proofs.Common.{rules};
ghost use Rattle.rules.specs.Sharing.{Shared, shared, is_sharing_question};
ghost use Rattle.rules.specs.SharingRules.{truncated, rate, unit_shares, unit_remainder, unit_margin, InProportion};
ghost use Rattle.std.proofs.lemmas.List.{length-map};
ghost use Rattle.rules.specs.Differences.{all_remains};
ghost use Rattle.rules.specs.Truncated.{rate_cuts, rate_whole};
ghost use Rattle.rules.specs.UnitShares.{shares_add_up, none_for_zero, zero_shared, shares_on_one_side, remainder_small};

use crate::cut::{Cut, share_by};
use crate::division::Division;
use crate::fault::RuleFault;
use crate::sharing_rule::SharingRule;

// Shares are whole multiples of the weights; what a whole rate cannot share remains.
#[derive(Clone, Copy, Debug, PartialEq, Eq)]
pub struct UnitRule;

impl SharingRule for UnitRule {
    ghost shares = { λ _. unit_shares };

    ghost remainder = { λ _. unit_remainder };

    ghost margin = { λ _. unit_margin };

    ghost a_share_for_each_weight = { λ rule amount ws h. length-map ws (λ w. rate amount ws *ℤ pos w) };

    ghost shares_and_remainder_add_up = { λ rule amount ws h. shares_add_up amount ws };

    ghost weight_zero_has_share_zero = { λ rule amount ws h. none_for_zero amount ws };

    ghost amount_zero_has_shares_zero = { λ rule ws h. zero_shared ws };

    ghost no_share_across_zero = { λ rule amount ws h. shares_on_one_side amount ws };

    ghost all_remains_without_weight = { λ rule amount ws h. all_remains amount (λ p. rate amount ws *ℤ pos p) (rate_cuts amount (sum ws)) ws };

    ghost remainder_within_margin = { λ rule amount ws h. remainder_small amount ws };

    ghost margin_below_total = { Prim.search rules };

    // `value` repeats the trait's clause, since clauses on a method stand in place of its trait's.
    fn share(&self, amount: i64, weights: &[u32], into: &mut [i64]) -> Result<i64, RuleFault>
        ensures value { ◌≡◌ {A = Shared} (result, into.new) (shared (is_sharing_question weights.now (length into.old)) (unit_shares amount weights.now) (unit_remainder amount weights.now) into.old) }
        ensures proportion { (remainder : ℤ) → result ≡ Ok remainder → 0 < sum weights.now → InProportion amount weights.now into.new }
    {
        share_by::<UnitRule>(amount, weights, into)
    }
}

impl Cut for UnitRule {
    ghost cut = { λ amount total p. truncated amount total *ℤ pos p };

    ghost cuts = { rate_cuts };

    ghost toward = { rate_whole };

    fn cut(division: Division, so_far: u32) -> i64 {
        division.by_rate(so_far)
    }
}
