// The events that messages carry, one to a field.
ghost use Rattle.std.specs.Prelude.{◌≡◌};
ghost use Rattle.messages.specs.Field.{kind_byte, marked, kind_of, tag, size, stands_at};

use crate::fault::ReaderFault;
use crate::tag::Tag;
use amounts::wire::{WireKwh, WireKwhChange, WirePrice};

// What the operator does in a balancing action, each with its mark.
#[derive(Clone, Copy, Debug, PartialEq, Eq)]
pub enum ActionKind {
    Buy = 0,
    Sell = 1,
}

impl From<ActionKind> for u8 {
    ghost from_gives = { λ kind mark. mark ≡ kind_byte kind };

    fn from(kind: ActionKind) -> u8 {
        kind as u8
    }
}

impl TryFrom<u8> for ActionKind {
    type Error = ReaderFault;

    ghost try_from_gives = { λ mark answer. answer ≡ kind_of mark };

    fn try_from(mark: u8) -> Result<ActionKind, ReaderFault> {
        marked(mark, ActionKind::Buy, ActionKind::Sell)
    }
}

// What a mark says: of two things the one under 0 or the one under 1.
pub(crate) fn marked<T: Copy>(mark: u8, zero: T, one: T) -> Result<T, ReaderFault>
    ensures { result ≡ marked zero one mark }
{
    match mark {
        0 => Ok(zero),
        1 => Ok(one),
        _ => Err(ReaderFault::MarkUnknown),
    }
}

// Each number has exactly the range of its bytes, so each event has one message.
#[derive(Clone, Copy, Debug, PartialEq, Eq)]
pub enum Event {
    // A User's input, output and input nomination for the Day.
    Figures {
        user: u8,
        input: WireKwh,
        output: WireKwh,
        nomination: WireKwh,
    },
    Trade {
        seller: u8,
        buyer: u8,
        quantity: WireKwh,
    },
    Action {
        user: u8,
        kind: ActionKind,
        locational: bool,
        quantity: WireKwh,
        price: WirePrice,
    },
    Close,
    Reconcile {
        user: u8,
        day: u16,
        quantity: WireKwhChange,
    },
    // The first message: the number of Users, the default price and the seven preceding averages, oldest first.
    Opening {
        users: u8,
        default_price: WirePrice,
        averages: [WirePrice; 7],
    },
}

impl Event {
    // The tag of the event's field.
    pub(crate) fn tag(&self) -> Tag
        ensures { result ≡ tag self.now }
    {
        match self {
            Event::Figures { .. } => Tag::Figures,
            Event::Trade { .. } => Tag::Trade,
            Event::Action { .. } => Tag::Action,
            Event::Close => Tag::Close,
            Event::Reconcile { .. } => Tag::Reconcile,
            Event::Opening { .. } => Tag::Opening,
        }
    }

    // How many bytes the event's field has, its tag and its length among them.
    pub(crate) fn size(&self) -> usize
        ensures { result ≡ size self.now }
    {
        self.tag().field_length()
    }

    // Whether the event may stand at a place: an opening at the first, any other elsewhere.
    pub(crate) fn stands_at(&self, place: usize) -> bool
        ensures { result ≡ stands_at self.now place }
    {
        self.tag().may_stand(place)
    }
}
