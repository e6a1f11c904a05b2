// Price rules and sharing rules: what a rule means, two of each kind, and what they refuse.
#![tactic(auto)]

pub mod any_rule;
mod cut;
mod division;
pub mod fault;
pub mod figures;
mod limited_price;
pub mod marginal_rule;
pub mod price_rule;
pub mod quoted_rule;
pub mod running_rule;
pub mod sharing_rule;
mod tally;
pub mod unit_rule;
pub mod weights;
