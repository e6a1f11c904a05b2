// What a sharing rule is.
ghost use Rattle.std.specs.Prelude.{◌≡◌, ℕ, ◌-◌, ◌<◌, ◌≤◌, List, length, ℤ, pos, ◌+ℤ◌, ◌≤ℤ◌, sum, slice_index, slice_index_or, unsigned_abs};
ghost use Rattle.std.specs.List.{All};
ghost use Rattle.amounts.specs.Sums.{sum_z};
ghost use Rattle.rules.specs.Sharing.{Shareable, Shared, shared, is_sharing_question};

use crate::fault::RuleFault;

// A rule means its shares and its remainder as functions of amount and weights, and a margin for each sum of weights.
pub trait SharingRule {
    ghost shares: { Self → ℤ → List ℕ → List ℤ };

    ghost remainder: { Self → ℤ → List ℕ → ℤ };

    ghost margin: { Self → ℕ → ℕ };

    // Writes a share for each weight and answers the remainder; refused exactly where a list or a figure is out of its
    // limits, and then the slice is as it was. Amount, weights and slice are no struct: one that holds the lent slice changes
    // with it, and each clause would name the moment at which it reads the other two. Weights and shares are two slices, since
    // the caller lends both and there is no heap to hold pairs.
    fn share(&self, amount: i64, weights: &[u32], into: &mut [i64]) -> Result<i64, RuleFault>
        ensures value { ◌≡◌ {A = Shared} (result, into.new) (shared (is_sharing_question weights.now (length into.old)) (shares self.now amount weights.now) (remainder self.now amount weights.now) into.old) };

    ghost a_share_for_each_weight: { (rule : Self) (amount : ℤ) (weights : List ℕ) → Shareable amount weights → length (shares rule amount weights) ≡ length weights };

    ghost shares_and_remainder_add_up: { (rule : Self) (amount : ℤ) (weights : List ℕ) → Shareable amount weights → sum_z (shares rule amount weights) +ℤ remainder rule amount weights ≡ amount };

    ghost weight_zero_has_share_zero: { (rule : Self) (amount : ℤ) (weights : List ℕ) → Shareable amount weights → (k : ℕ) → k < length weights → slice_index weights k ≡ 0 → slice_index_or (shares rule amount weights) k (pos 0) ≡ pos 0 };

    ghost amount_zero_has_shares_zero: { (rule : Self) (weights : List ℕ) → Shareable (pos 0) weights → All (λ share. share ≡ pos 0) (shares rule (pos 0) weights) };

    ghost no_share_across_zero: { (rule : Self) (amount : ℤ) (weights : List ℕ) → Shareable amount weights → (pos 0 ≤ℤ amount → All (λ share. pos 0 ≤ℤ share) (shares rule amount weights)) × (amount ≤ℤ pos 0 → All (λ share. share ≤ℤ pos 0) (shares rule amount weights)) };

    ghost all_remains_without_weight: { (rule : Self) (amount : ℤ) (weights : List ℕ) → Shareable amount weights → sum weights ≡ 0 → remainder rule amount weights ≡ amount };

    ghost remainder_within_margin: { (rule : Self) (amount : ℤ) (weights : List ℕ) → Shareable amount weights → 0 < sum weights → unsigned_abs (remainder rule amount weights) ≤ margin rule (sum weights) };

    ghost margin_below_total: { (rule : Self) (total : ℕ) → 0 < total → margin rule total ≤ total - 1 };
}
