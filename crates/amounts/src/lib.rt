// What every layer shares: quantities, prices and money, their limits, rounding, and what a refusal is.
#![tactic(auto)]

pub mod amount;
pub mod fault;
pub mod layer;
pub mod limits;
pub mod rounding;
pub mod wire;
