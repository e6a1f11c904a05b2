// The question that every sharing rule asks of its weights.
ghost use Rattle.std.specs.Prelude.{◌≡◌, ◌≤◌, IfOk, if◌then◌else◌, Ok, Err, sum};
ghost use Rattle.rules.specs.Sharing.{is_sharing_question};

use crate::fault::RuleFault;

// The most weights that a rule is asked with.
pub const WEIGHT_COUNT_LIMIT: usize = 32;

// The largest weight.
pub const WEIGHT_LIMIT: u32 = 2_000_000;

// The sum of the weights; refused where a weight, the number of weights or the number of places is out of its limits.
pub(crate) fn total_weight(weights: &[u32], places: usize) -> Result<u32, RuleFault>
    ensures value { result ≡ (if is_sharing_question weights.now places then Ok (sum weights.now) else Err RuleFault.QuestionOutOfLimit) }
    ensures small { IfOk result (λ total. total ≤ 64000000) }
{
    if !(1..=WEIGHT_COUNT_LIMIT).contains(&weights.len())
        || places != weights.len()
        || !weights.iter().all(|weight| *weight <= WEIGHT_LIMIT)
    {
        return Err(RuleFault::QuestionOutOfLimit);
    }
    Ok(weights.iter().sum())
}
