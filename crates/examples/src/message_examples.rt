use amounts::fault::Fault;
use amounts::layer::Layer;
use amounts::wire::{WireKwh, WireKwhChange, WirePrice};
use messages::event::{ActionKind, Event};
use messages::fault::ReaderFault;
use messages::reader::Reader;
use messages::writer::write;
use std::alloc::{AllocError, Global};
use std::test::Fail;

type Answer = Result<Option<Event>, ReaderFault>;

// The worked Day: an opening, the figures of two Users, a trade, an action, a close and a reconciliation.
pub const DAY: [u8; 104] = *b"\
      \x10\x00\x21\x02\x00\x00\x00\x64\x00\x00\x4e\x20\x00\x00\x4e\x20\x00\x00\x4e\x20\
      \x00\x00\x4e\x20\x00\x00\x4e\x20\x00\x00\x4e\x20\x00\x00\x4e\x20\
      \x01\x00\x0d\x01\x00\x00\x03\xe8\x00\x00\x03\x84\x00\x00\x03\xe8\
      \x01\x00\x0d\x02\x00\x00\x01\xf4\x00\x00\x02\xbc\x00\x00\x01\x90\
      \x02\x00\x06\x01\x02\x00\x00\x00\x1e\
      \x03\x00\x0b\x01\x00\x00\x00\x00\x00\x3c\x00\x00\x52\x08\
      \x04\x00\x00\
      \x05\x00\x07\x02\x00\x01\xff\xff\xff\xfb";

// A field of each kind but the close; within each, no two numbers or marks are alike, so that none is taken for another.
pub const APART: [u8; 99] = *b"\
      \x10\x00\x21\x03\x01\x02\x03\x04\x11\x12\x13\x14\x21\x22\x23\x24\x31\x32\x33\x34\
      \x41\x42\x43\x44\x51\x52\x53\x54\x61\x62\x63\x64\x71\x72\x73\x74\
      \x01\x00\x0d\xff\x01\x02\x03\x04\x05\x06\x07\x08\x09\x0a\x0b\x0c\
      \x02\x00\x06\x03\x04\xf1\xf2\xf3\xf4\
      \x03\x00\x0b\x05\x01\x00\x0a\x0b\x0c\x0d\x0e\x0f\x10\x11\
      \x03\x00\x0b\x06\x00\x01\x00\x00\x00\x01\x00\x00\x00\x02\
      \x05\x00\x07\x07\x01\x02\x80\x00\x00\x01";

fn opening() -> Event {
    Event::Opening {
        users: 2,
        default_price: WirePrice(100),
        averages: [WirePrice(20_000); 7],
    }
}

fn figures(user: u8, input: u32, output: u32, nomination: u32) -> Event {
    Event::Figures {
        user,
        input: WireKwh(input),
        output: WireKwh(output),
        nomination: WireKwh(nomination),
    }
}

// The events of the worked Day.
fn day() -> [Event; 7] {
    [
        opening(),
        figures(1, 1_000, 900, 1_000),
        figures(2, 500, 700, 400),
        Event::Trade {
            seller: 1,
            buyer: 2,
            quantity: WireKwh(30),
        },
        Event::Action {
            user: 1,
            kind: ActionKind::Buy,
            locational: false,
            quantity: WireKwh(60),
            price: WirePrice(21_000),
        },
        Event::Close,
        Event::Reconcile {
            user: 2,
            day: 1,
            quantity: WireKwhChange(-5),
        },
    ]
}

// What is read first, and what is read after an opening.
fn first(bytes: &[u8]) -> Answer {
    Reader::new(bytes).next()
}

fn second(heap: Global, field: &[u8]) -> Result<Answer, AllocError> {
    let mut bytes = Vec::from_slice(heap, &DAY[0..36])?;
    bytes.extend_from_slice(field)?;
    let mut reader = Reader::new(bytes.as_slice());
    let _ = reader.next();
    Ok(reader.next())
}

#[test]
fn the_worked_day_is_read(rt: HostRuntime) {
    let mut reader = Reader::new(&DAY);
    for (event, after) in day().iter().zip([36, 52, 68, 77, 91, 94, 104].iter()) {
        assert_eq!(rt; reader.next(), Ok(Some(*event)));
        assert_eq!(rt; reader.place(), *after);
    }
    assert_eq!(rt; reader.next(), Ok(None));
    assert_eq!(rt; reader.place(), 104);
}

#[test]
fn the_worked_day_is_written(rt: HostRuntime) -> Result<(), Fail> {
    let mut bytes = [0xee; 105];
    let mut place = 0;
    for event in day() {
        place = write(&event, &mut bytes, place)?;
    }
    assert_eq!(rt; place, 104);
    assert!(rt; bytes[0..104] == DAY[0..104]);
    assert_eq!(rt; bytes[104], 0xee);
    Ok(())
}

#[test]
fn refused_at_place_0(rt: HostRuntime) {
    assert_eq!(rt; first(&[]), Ok(None));
    assert_eq!(rt; first(&[0x10]), Err(ReaderFault::HeaderTruncated));
    assert_eq!(rt; first(&[0x04, 0x00]), Err(ReaderFault::HeaderTruncated));
    assert_eq!(rt; first(&[0x10, 0x00]), Err(ReaderFault::HeaderTruncated));
    assert_eq!(rt; first(&[0x04, 0x00, 0x00]), Err(ReaderFault::TagUnknown));
    assert_eq!(rt; first(&[0x01, 0x00, 0x0d]), Err(ReaderFault::TagUnknown));
    assert_eq!(rt; first(&[0x11, 0x00, 0x21]), Err(ReaderFault::TagUnknown));
    assert_eq!(rt; first(&[0x10, 0x00, 0x20]), Err(ReaderFault::LengthWrong));
    assert_eq!(rt; first(&[0x10, 0x01, 0x21]), Err(ReaderFault::LengthWrong));
    assert_eq!(rt;
        first(&[0x10, 0x00, 0x21]),
        Err(ReaderFault::ValueTruncated)
    );
    assert_eq!(rt; first(&DAY[0..35]), Err(ReaderFault::ValueTruncated));
    assert_eq!(rt; first(&DAY[0..36]), Ok(Some(opening())));
}

#[test]
fn refused_at_another_place(rt: HostRuntime) -> Result<(), Fail> {
    let heap = rt.alloc();
    assert_eq!(rt; second(heap, &[])?, Ok(None));
    assert_eq!(rt;
        second(heap, &[0x04, 0x00])?,
        Err(ReaderFault::HeaderTruncated)
    );
    assert_eq!(rt;
        second(heap, &[0x10, 0x00, 0x21])?,
        Err(ReaderFault::TagUnknown)
    );
    assert_eq!(rt;
        second(heap, &[0x00, 0x00, 0x00])?,
        Err(ReaderFault::TagUnknown)
    );
    assert_eq!(rt;
        second(heap, &[0x06, 0x00, 0x00])?,
        Err(ReaderFault::TagUnknown)
    );
    assert_eq!(rt;
        second(heap, &[0x04, 0x00, 0x01])?,
        Err(ReaderFault::LengthWrong)
    );
    assert_eq!(rt;
        second(heap, &[0x03, 0x00, 0x0c, 0x01, 0x02, 0x02])?,
        Err(ReaderFault::LengthWrong)
    );
    assert_eq!(rt; second(heap, &[0x04, 0x00, 0x00])?, Ok(Some(Event::Close)));
    Ok(())
}

// An action's marks are 0 or 1, and are asked only once the value is there.
#[test]
fn marks(rt: HostRuntime) -> Result<(), Fail> {
    let heap = rt.alloc();
    for (kind, locational, known) in [
        (0, 0, true),
        (1, 1, true),
        (2, 0, false),
        (0, 2, false),
        (255, 255, false),
    ] {
        let field = [
            0x03, 0x00, 0x0b, 0x01, kind, locational, 0x00, 0x00, 0x00, 0x3c, 0x00, 0x00, 0x52,
            0x08,
        ];
        let answer = second(heap, &field)?;
        assert_eq!(rt; answer.is_ok(), known);
        assert_eq!(rt; answer == Err(ReaderFault::MarkUnknown), !known);
        assert_eq!(rt;
            second(heap, &field[0..13])?,
            Err(ReaderFault::ValueTruncated)
        );
    }
    Ok(())
}

// The fields of the worked Day, cut at every byte.
#[test]
fn cut_at_every_byte(rt: HostRuntime) {
    for (before, from, to) in [
        (1, 36usize, 52usize),
        (3, 68, 77),
        (4, 77, 91),
        (5, 91, 94),
        (6, 94, 104),
    ] {
        for end in from..to {
            let mut reader = Reader::new(&DAY[0..end.min(104)]);
            for _ in 0..before {
                assert!(rt; reader.next().is_ok());
            }
            let expected = match end - from {
                0 => Ok(None),
                1..=2 => Err(ReaderFault::HeaderTruncated),
                _ => Err(ReaderFault::ValueTruncated),
            };
            assert_eq!(rt; reader.next(), expected);
            assert_eq!(rt; reader.place(), from);
        }
    }
}

// A field fits exactly, or not by one byte; the first place is for the opening alone.
#[test]
fn refused_writes(rt: HostRuntime) {
    let mut bytes = [0xee; 12];
    assert_eq!(rt;
        write(&Event::Close, &mut bytes, 0),
        Err(ReaderFault::TagUnknown)
    );
    assert_eq!(rt;
        write(&opening(), &mut bytes, 1),
        Err(ReaderFault::TagUnknown)
    );
    assert_eq!(rt; write(&opening(), &mut bytes, 0), Err(ReaderFault::NoSpace));
    assert_eq!(rt;
        write(&Event::Close, &mut bytes, 10),
        Err(ReaderFault::NoSpace)
    );
    assert_eq!(rt;
        write(&Event::Close, &mut bytes, 13),
        Err(ReaderFault::NoSpace)
    );
    assert_eq!(rt;
        write(&Event::Close, &mut bytes, usize::MAX),
        Err(ReaderFault::NoSpace)
    );
    assert!(rt; bytes == [0xee; 12]);
    assert_eq!(rt; write(&Event::Close, &mut bytes, 9), Ok(12));
    assert!(rt;
        bytes
            == [
                0xee, 0xee, 0xee, 0xee, 0xee, 0xee, 0xee, 0xee, 0xee, 0x04, 0x00, 0x00,
            ]
    );
}

// Each field, read and written again at its place.
#[test]
fn written_as_it_was_read(rt: HostRuntime) -> Result<(), Fail> {
    let mut bytes = [0xee; 99];
    let mut reader = Reader::new(&APART);
    for _ in 0..6 {
        let place = reader.place();
        let event = reader.next()?.ok_or("no event")?;
        assert_eq!(rt; write(&event, &mut bytes, place), Ok(reader.place()));
    }
    assert_eq!(rt; reader.next(), Ok(None));
    assert!(rt; bytes == APART);
    Ok(())
}

#[test]
fn faults(rt: HostRuntime) {
    for (fault, number) in [
        (ReaderFault::HeaderTruncated, 1),
        (ReaderFault::TagUnknown, 2),
        (ReaderFault::LengthWrong, 3),
        (ReaderFault::ValueTruncated, 4),
        (ReaderFault::MarkUnknown, 5),
        (ReaderFault::NoSpace, 6),
        (ReaderFault::InputTooLong, 7),
    ] {
        assert_eq!(rt; fault.number(), number);
        assert_eq!(rt; fault.layer(), Layer::Reader);
    }
}
