// Lists a run of bytes: a line for each event, then one that counts them or says what was refused.
ghost use Rattle.std.specs.Prelude.{◌≡◌, ◌≤◌, ◌∷◌, length};
ghost use Rattle.std.specs.Iterator.{YieldsFirst, item_count};
ghost use Rattle.messages.specs.Input.{limited};
ghost use Rattle.lister.specs.declared.listing.Stage.TheVariants.{Reading};
ghost use Rattle.lister.specs.Lines.{first_stage, listed, coming};
ghost use Rattle.lister.specs.Tells.{Tells};

use crate::line::Line;
use crate::listing::{Listing, Stage};
use messages::fault::ReaderFault;
use messages::input::{INPUT_LIMIT, check_input};
use messages::reader::Reader;

impl<'a> Listing<'a> {
    pub fn new(bytes: &'a [u8]) -> Listing<'a>
        ensures lines { coming result ≡ listed bytes.now }
        ensures tells { length bytes.now ≤ 65536 → Tells bytes.now 0 0 (coming result) }
    {
        Listing {
            reader: Reader::new(bytes),
            events: 0,
            stage: first_stage(bytes),
        }
    }

    // The line of the next field.
    fn read_line(&mut self) -> Line
        requires { self.old.stage ≡ Reading }
        ensures { coming self.old ≡ result ∷ coming self.new }
    {
        let place = self.reader.place();
        match self.reader.next() {
            Ok(Some(event)) => {
                self.events += 1;
                Line::Read { place, event }
            }
            Ok(None) => {
                self.stage = Stage::Ended;
                Line::Total {
                    events: self.events,
                    bytes: place,
                }
            }
            Err(fault) => {
                self.stage = Stage::Ended;
                Line::Refused { fault, place }
            }
        }
    }
}

// The lines, one after another.
impl Iterator for Listing<'_> {
    type Item = Line;

    ghost next_gives = { YieldsFirst coming };

    ghost remaining = { item_count coming };

    fn next(&mut self) -> Option<Line> {
        match self.stage {
            Stage::TooLong => {
                self.stage = Stage::Ended;
                Some(Line::Refused {
                    fault: ReaderFault::InputTooLong,
                    place: INPUT_LIMIT,
                })
            }
            Stage::Reading => Some(self.read_line()),
            Stage::Ended => None,
        }
    }
}

// Whether the bytes are read at all.
fn first_stage(bytes: &[u8]) -> Stage
    ensures { result ≡ first_stage (limited (length bytes.now)) }
{
    match check_input(bytes) {
        Ok(()) => Stage::Reading,
        Err(_) => Stage::TooLong,
    }
}
