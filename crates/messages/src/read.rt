// Reads one event after another from borrowed bytes.
ghost use Rattle.std.specs.Prelude.{◌≡◌, ◌+◌, ◌≤◌, ◌<◌, drop, length, IfOk};
ghost use Rattle.std.specs.Int.{w32, cast_signed};
ghost use Rattle.messages.specs.Tag.{value_length};
ghost use Rattle.messages.specs.Decode.{quad, event_of, valued, field, decode, after};
ghost use Rattle.messages.specs.Message.{Message, Accepted, ReadsAs};
ghost use Rattle.messages.specs.Left.{left, Falls};

use crate::event::{ActionKind, Event, marked};
use crate::fault::ReaderFault;
use crate::reader::Reader;
use crate::tag::Tag;
use amounts::wire::{WireKwh, WireKwhChange, WirePrice};
use std::array;

impl Reader<'_> {
    // The next event, or none at the end of the bytes. A refusal leaves the reader where it was; so this is no `Iterator`, which
    // would give the same refusal for ever.
    pub fn next(&mut self) -> Result<Option<Event>, ReaderFault>
        ensures value { result ≡ decode self.old.place self.old.bytes.now }
        ensures message { Accepted self.old.place (drop self.old.place self.old.bytes.now) result }
        ensures reads { ReadsAs self.old.place (drop self.old.place self.old.bytes.now) result }
        ensures place { self.new.place ≡ after self.old.place result }
        ensures falls { Falls result (left self.old) (left self.new) }
        ensures same { self.new.bytes.now ≡ self.old.bytes.now }
    {
        if self.place >= self.bytes.len() {
            return Ok(None);
        }
        let event = read_field(self.place, &self.bytes[self.place..])?;
        self.place += event.size();
        Ok(Some(event))
    }
}

// The event of the first field of the bytes that are left at a place.
fn read_field(place: usize, left: &[u8]) -> Result<Event, ReaderFault>
    ensures value { result ≡ field place left.now }
    ensures message { IfOk result (Message place left.now) }
{
    let [byte, high, low, rest @ ..] = left else {
        return Err(ReaderFault::HeaderTruncated);
    };
    let tag = Tag::at(place, *byte)?;
    read_value(tag, u16::from_be_bytes([*high, *low]), rest)
}

// The event under a tag, of the length and the bytes that follow it.
fn read_value(tag: Tag, len: u16, bytes: &[u8]) -> Result<Event, ReaderFault>
    ensures { result ≡ valued tag len bytes.now }
{
    if len != tag.value_length() {
        return Err(ReaderFault::LengthWrong);
    }
    let value = bytes
        .get(..usize::from(len))
        .ok_or(ReaderFault::ValueTruncated)?;
    event_of(tag, value)
}

// The event that the bytes of a value say under a tag.
fn event_of(tag: Tag, value: &[u8]) -> Result<Event, ReaderFault>
    requires { length value.now ≡ value_length tag }
    ensures { result ≡ event_of tag value.now }
{
    Ok(match tag {
        Tag::Figures => Event::Figures {
            user: value[0],
            input: WireKwh(quad(value, 1)),
            output: WireKwh(quad(value, 5)),
            nomination: WireKwh(quad(value, 9)),
        },
        Tag::Trade => Event::Trade {
            seller: value[0],
            buyer: value[1],
            quantity: WireKwh(quad(value, 2)),
        },
        Tag::Action => Event::Action {
            user: value[0],
            kind: ActionKind::try_from(value[1])?,
            locational: marked(value[2], false, true)?,
            quantity: WireKwh(quad(value, 3)),
            price: WirePrice(quad(value, 7)),
        },
        Tag::Close => Event::Close,
        Tag::Reconcile => Event::Reconcile {
            user: value[0],
            day: u16::from_be_bytes([value[1], value[2]]),
            quantity: WireKwhChange(quad(value, 3).cast_signed()),
        },
        Tag::Opening => Event::Opening {
            users: value[0],
            default_price: WirePrice(quad(value, 1)),
            averages: array::from_fn(|i| WirePrice(quad(value, 5 + 4 * i))),
        },
    })
}

// The number that four bytes write from a place on, highest byte first.
fn quad(value: &[u8], at: usize) -> u32
    requires { at + 4 ≤ length value.now }
    ensures { result ≡ quad value.now at }
{
    u32::from_be_bytes([value[at], value[at + 1], value[at + 2], value[at + 3]])
}
