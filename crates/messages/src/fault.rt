// What the reader's layer refuses: reading, writing, and taking in more than its limit.
ghost use Rattle.amounts.specs.declared.layer.Layer.TheVariants.{Reader};
ghost use Rattle.messages.specs.Faults.{number, tells_apart};

use amounts::fault::Fault;
use amounts::layer::Layer;

// The causes, each with its number.
#[derive(Clone, Copy, Debug, PartialEq, Eq)]
pub enum ReaderFault {
    // Fewer than three bytes are left for a tag and a length.
    HeaderTruncated = 1,
    // The tag is not known at its place.
    TagUnknown = 2,
    // The length is not that of the tag.
    LengthWrong = 3,
    // Fewer bytes are left than the length says.
    ValueTruncated = 4,
    // A mark is neither 0 nor 1.
    MarkUnknown = 5,
    // The field does not fit the buffer from its place.
    NoSpace = 6,
    // The input is longer than its limit.
    InputTooLong = 7,
}

impl Fault for ReaderFault {
    ghost REFUSED_BY = { Reader };

    ghost number = { number };

    ghost tells_apart = { tells_apart };

    const REFUSED_BY: Layer = Layer::Reader;

    fn number(&self) -> u8 {
        *self as u8
    }
}
