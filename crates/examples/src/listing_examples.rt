use crate::message_examples::{APART, DAY};
use lister::line::Line;
use lister::listing::Listing;
use messages::fault::ReaderFault;
use std::alloc::{AllocError, Global};
use std::test::Fail;

// The opening and the reconciliation of the worked Day, and then so many closes.
fn closes(heap: Global, count: usize) -> Result<Vec<u8>, AllocError> {
    let mut bytes = Vec::from_slice(heap, &DAY[0..36])?;
    bytes.extend_from_slice(&DAY[94..104])?;
    for _ in 0..count {
        bytes.extend_from_slice(&[0x04, 0x00, 0x00])?;
    }
    Ok(bytes)
}

// The last line of a listing.
fn last(bytes: &[u8]) -> Option<Line> {
    Listing::new(bytes).last()
}

// 65,536 bytes are listed; with one more, nothing is.
#[test]
fn input_limit(rt: HostRuntime) -> Result<(), Fail> {
    let mut bytes = closes(rt.alloc(), 21_830)?;
    assert_eq!(rt;
        last(bytes.as_slice()),
        Some(Line::Total {
            events: 21_832,
            bytes: 65_536,
        })
    );
    bytes.push(0x04)?;
    let mut listing = Listing::new(bytes.as_slice());
    let refused = Line::Refused {
        fault: ReaderFault::InputTooLong,
        place: 65_536,
    };
    assert_eq!(rt; listing.next(), Some(refused));
    assert_eq!(rt; listing.next(), None);
    assert!(rt; format!(in rt.alloc(); "{refused}")?.as_str() == "refused 7 at 65536");
    Ok(())
}

// Every number and every mark under its own name.
#[test]
fn fields_by_name(rt: HostRuntime) -> Result<(), Fail> {
    let heap = rt.alloc();
    let mut listing = Listing::new(&APART);
    for text in [
        "0 opening users 3 default 16909060 average1 286397204 average2 555885348 average3 825373492 average4 1094861636 average5 1364349780 average6 1633837924 average7 1903326068",
        "36 figures user 255 input 16909060 output 84281096 nomination 151653132",
        "52 trade seller 3 buyer 4 quantity 4059231220",
        "61 action user 5 kind sell locational no quantity 168496141 price 235868177",
        "75 action user 6 kind buy locational yes quantity 1 price 2",
        "89 reconcile user 7 day 258 quantity -2147483647",
        "6 events 99 bytes",
    ] {
        let line = listing.next().ok_or("no line")?;
        assert!(rt; format!(in heap; "{line}")?.as_str() == text);
    }
    assert_eq!(rt; listing.next(), None);
    Ok(())
}

#[test]
fn last_lines(rt: HostRuntime) -> Result<(), Fail> {
    let heap = rt.alloc();
    for (bytes, text) in [
        (&DAY[0..0], "0 events 0 bytes"),
        (&DAY[0..1], "refused 1 at 0"),
        (&DAY[1..104], "refused 2 at 0"),
        (&DAY[0..36], "1 events 36 bytes"),
        (&DAY[0..103], "refused 4 at 94"),
        (&DAY[0..104], "7 events 104 bytes"),
    ] {
        let line = last(bytes).ok_or("no line")?;
        let shown = format!(in heap; "{line}")?;
        assert!(rt; shown.as_str() == text);
    }
    Ok(())
}
