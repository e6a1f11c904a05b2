// Examples that the crates below are run on. Expected values are worked by hand.
#![tactic(auto)]

#[cfg(test)]
mod amount_examples;
#[cfg(test)]
mod listing_examples;
#[cfg(test)]
mod message_examples;
#[cfg(test)]
mod rule_examples;
