// A line of a listing, and how it is printed.
ghost use Rattle.std.specs.Prelude.{Some};
ghost use Rattle.lister.specs.Text.{line_text};

use amounts::fault::Fault;
use messages::event::Event;
use messages::fault::ReaderFault;
use std::fmt;

#[derive(Clone, Copy, Debug, PartialEq, Eq)]
pub enum Line {
    // The event of the field at a place.
    Read { place: usize, event: Event },
    // Why the field at a place was refused.
    Refused { fault: ReaderFault, place: usize },
    // How much was read, where nothing was refused.
    Total { events: usize, bytes: usize },
}

impl fmt::Display for Line {
    ghost output = { λ line. Some (line_text line) };

    fn fmt<W: fmt::Write>(&self, f: &mut fmt::Formatter<W>) -> fmt::Result {
        match self {
            Line::Read { place, event } => write!(f, "{place} {event}"),
            Line::Refused { fault, place } => { write!(f, "refused {} at {place}", fault.number()) }
            Line::Total { events, bytes } => write!(f, "{events} events {bytes} bytes"),
        }
    }
}
