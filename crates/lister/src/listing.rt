// The state of a listing.
ghost use Rattle.std.specs.Prelude.{◌*◌, ◌≤◌};

use messages::reader::Reader;

// What a listing does next. An enum, and no closure in its place: `next` matches it once, and each step sets the next.
#[derive(Clone, Copy)]
pub(crate) enum Stage {
    // It refuses the whole input, which is too long.
    TooLong,
    // It reads the next field.
    Reading,
    // Nothing more.
    Ended,
}

// A reader over the bytes, and how many events it has read, each of three bytes or more.
#[derive(Drop)]
pub struct Listing<'a> {
    pub(crate) reader: Reader<'a>,
    pub(crate) events: usize,
    pub(crate) stage: Stage,
    ghost counted: { 3 * events ≤ reader.place },
}
