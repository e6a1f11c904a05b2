// Shares as differences: each weight gets what it adds to what the weights so far have of the amount together.
ghost use Rattle.std.specs.Prelude.{◌≡◌, ◌≤◌, ℕ, ℤ, ◌-ℤ◌, length, sum};
ghost use Rattle.rules.specs.Sharing.{Shared, shared, is_sharing_question};
ghost use Rattle.rules.specs.SharingRules.{differences};
ghost use Rattle.rules.specs.Cuts.{Cuts, Toward};

use crate::division::Division;
use crate::fault::RuleFault;
use crate::weights::total_weight;

// A rule by which the weights so far have a part of the amount together: nothing at first, then ever more of it, and all of
// them no more than the amount.
pub(crate) trait Cut {
    ghost cut: { ℤ → ℕ → ℕ → ℤ };

    // What weights that add up to so much have.
    fn cut(division: Division, so_far: u32) -> i64
        requires { so_far ≤ division.total }
        ensures { result ≡ cut division.amount division.total so_far };

    ghost cuts: { (amount : ℤ) (total : ℕ) → Cuts amount (cut amount total) };

    ghost toward: { (amount : ℤ) (total : ℕ) → Toward amount (cut amount total total) };
}

// Shares an amount by a rule of this kind.
pub(crate) fn share_by<C: Cut>(
    amount: i64,
    weights: &[u32],
    into: &mut [i64],
) -> Result<i64, RuleFault>
    ensures { ◌≡◌ {A = Shared} (result, into.new) (shared (is_sharing_question weights.now (length into.old)) (differences (C.cut amount (sum weights.now)) 0 weights.now) (amount -ℤ C.cut amount (sum weights.now) (sum weights.now)) into.old) }
{
    let total = total_weight(weights, into.len())?;
    let shared = write_shares::<C>(Division::new(amount, total), weights, into);
    Ok(amount - shared)
}

// Writes what each weight adds to the cut, and answers the last cut.
fn write_shares<C: Cut>(division: Division, weights: &[u32], into: &mut [i64]) -> i64
    requires same { length into.old ≡ length weights.now }
    requires whole { division.total ≡ sum weights.now }
    ensures last { result ≡ C.cut division.amount division.total division.total }
    ensures written { into.new ≡ differences (C.cut division.amount division.total) 0 weights.now }
{
    let mut so_far = 0;
    let mut before = 0;
    // By index: tried as a `zip` with `iter_mut`, after which no element of the slice is known.
    for (i, weight) in weights.iter().enumerate() {
        so_far += *weight;
        let reached = C::cut(division, so_far);
        let share = reached - before;
        into[i] = share;
        before = reached;
    }
    before
}
