// The messages of the settlement unit: a reader over borrowed bytes, a writer into a lent buffer, and how an event is printed.
#![tactic(auto)]

pub mod event;
pub mod fault;
pub mod input;
mod read;
pub mod reader;
mod tag;
mod text;
pub mod writer;
