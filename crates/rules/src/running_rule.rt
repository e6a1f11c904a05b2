// The running rule: what the weights so far have together is rounded toward zero, and each share is what its weight adds.
ghost use Rattle.std.specs.Prelude.{◌≡◌, ◌<◌, length, ℤ, pos, Ok, sum};
ghost use Rattle.std.proofs.Common.{rules};
ghost use Rattle.rules.specs.Sharing.{Shared, shared, is_sharing_question};
ghost use Rattle.rules.specs.SharingRules.{cut, running_shares, running_remainder, running_margin, PrefixSumsTruncated};
ghost use Rattle.rules.specs.Differences.{length_differences, adds_up, zero_difference, none_of_zero, none_across_zero, all_remains};
ghost use Rattle.rules.specs.Truncated.{cut_cuts, cut_whole_toward, nothing_remains};

use crate::cut::{Cut, share_by};
use crate::division::Division;
use crate::fault::RuleFault;
use crate::sharing_rule::SharingRule;

// Every amount is shared to its last unit, unless all weights are 0.
#[derive(Clone, Copy, Debug, PartialEq, Eq)]
pub struct RunningRule;

impl SharingRule for RunningRule {
    ghost shares = { λ _. running_shares };

    ghost remainder = { λ _. running_remainder };

    ghost margin = { λ _. running_margin };

    ghost a_share_for_each_weight = { λ rule amount ws h. length_differences (cut amount (sum ws)) 0 ws };

    ghost shares_and_remainder_add_up = { λ rule amount ws h. adds_up amount (cut amount (sum ws)) (cut_cuts amount (sum ws)) ws };

    ghost weight_zero_has_share_zero = { λ rule amount ws h k l e. zero_difference (cut amount (sum ws)) 0 ws k l e };

    ghost amount_zero_has_shares_zero = { λ rule ws h. none_of_zero (cut (pos 0) (sum ws)) (cut_cuts (pos 0) (sum ws)) ws };

    ghost no_share_across_zero = { λ rule amount ws h. none_across_zero amount (cut amount (sum ws)) (cut_cuts amount (sum ws)) ws };

    ghost all_remains_without_weight = { λ rule amount ws h z. all_remains amount (cut amount (sum ws)) (cut_cuts amount (sum ws)) ws z };

    ghost remainder_within_margin = { λ rule amount ws h. nothing_remains amount (sum ws) };

    ghost margin_below_total = { Prim.search rules };

    // `value` repeats the trait's clause, since clauses on a method stand in place of its trait's.
    fn share(&self, amount: i64, weights: &[u32], into: &mut [i64]) -> Result<i64, RuleFault>
        ensures value { ◌≡◌ {A = Shared} (result, into.new) (shared (is_sharing_question weights.now (length into.old)) (running_shares amount weights.now) (running_remainder amount weights.now) into.old) }
        ensures prefixes { (remainder : ℤ) → result ≡ Ok remainder → 0 < sum weights.now → PrefixSumsTruncated amount weights.now into.new }
    {
        share_by::<RunningRule>(amount, weights, into)
    }
}

impl Cut for RunningRule {
    ghost cut = { cut };

    ghost cuts = { cut_cuts };

    ghost toward = { cut_whole_toward };

    fn cut(division: Division, so_far: u32) -> i64 {
        division.by_rate_and_rest(so_far)
    }
}
