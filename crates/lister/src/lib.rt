// What a run of bytes says, line by line.
#![tactic(auto)]

pub mod line;
mod lines;
pub mod listing;
