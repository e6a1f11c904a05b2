// Writes an event's field into a lent buffer.
ghost use Rattle.std.specs.Prelude.{◌≡◌, ◌+◌, ◌*◌, ◌^◌, ◌<◌, ◌≤◌, ◌++◌, length, Some, Ok, OnOk};
ghost use Rattle.std.specs.List.{All};
ghost use Rattle.messages.specs.Tag.{value_length};
ghost use Rattle.messages.specs.Field.{size};
ghost use Rattle.messages.specs.Decode.{decode};
ghost use Rattle.messages.specs.Encode.{quads_of, framed, encode, Whole};
ghost use Rattle.messages.specs.Write.{put, left_by, fitted, written};

use crate::event::Event;
use crate::fault::ReaderFault;
use crate::tag::Tag;

// Writes the event's field at a place of the buffer, and answers the place after it. The place comes with each call and is not
// kept beside the buffer: it is the caller's, and the buffer is lent for one field.
pub fn write(event: &Event, buffer: &mut [u8], place: usize) -> Result<usize, ReaderFault>
    ensures value { result ≡ written event.now (length buffer.old) place }
    ensures after { buffer.new ≡ left_by result buffer.old place (encode event.now) }
    ensures reads { OnOk result (decode place buffer.new ≡ Ok (Some event.now)) }
{
    if !event.stands_at(place) {
        return Err(ReaderFault::TagUnknown);
    }
    write_event(*event, buffer, place)
}

fn write_event(event: Event, buffer: &mut [u8], place: usize) -> Result<usize, ReaderFault>
    ensures value { result ≡ fitted (size event) (length buffer.old) place }
    ensures after { buffer.new ≡ left_by result buffer.old place (encode event) }
    ensures whole { Whole event }
{
    let tag = event.tag();
    match event {
        Event::Figures {
            user,
            input,
            output,
            nomination,
        } => write_field(
            buffer,
            place,
            tag,
            &[user],
            &[input.0, output.0, nomination.0],
        ),
        Event::Trade {
            seller,
            buyer,
            quantity,
        } => write_field(buffer, place, tag, &[seller, buyer], &[quantity.0]),
        Event::Action {
            user,
            kind,
            locational,
            quantity,
            price,
        } => write_field(
            buffer,
            place,
            tag,
            &[user, u8::from(kind), u8::from(locational)],
            &[quantity.0, price.0],
        ),
        Event::Close => write_field(buffer, place, tag, &[], &[]),
        Event::Reconcile {
            user,
            day,
            quantity,
        } => {
            let [high, low] = day.to_be_bytes();
            write_field(
                buffer,
                place,
                tag,
                &[user, high, low],
                &[quantity.0.cast_unsigned()],
            )
        }
        Event::Opening {
            users,
            default_price,
            averages,
        } => {
            let [d0, d1, d2, d3] = default_price.0.to_be_bytes();
            write_field(
                buffer,
                place,
                tag,
                &[users, d0, d1, d2, d3],
                &averages.map(|average| average.0),
            )
        }
    }
}

// Puts a field into the buffer, where it fits: the tag, the length, and a value of bytes and then numbers.
fn write_field(
    buffer: &mut [u8],
    place: usize,
    tag: Tag,
    bytes: &[u8],
    numbers: &[u32],
) -> Result<usize, ReaderFault>
    requires { length bytes.now + 4 * length numbers.now ≡ value_length tag }
    ensures value { result ≡ fitted (3 + value_length tag) (length buffer.old) place }
    ensures after { buffer.new ≡ left_by result buffer.old place (framed tag (bytes.now ++ quads_of numbers.now)) }
    ensures fit { All (λ n. n < 2 ^ 32) numbers.now }
{
    let size = tag.field_length();
    if place > buffer.len() || buffer.len() - place < size {
        return Err(ReaderFault::NoSpace);
    }
    let [high, low] = tag.value_length().to_be_bytes();
    put(buffer, place, &[u8::from(tag), high, low]);
    put(buffer, place + 3, bytes);
    put_numbers(buffer, place + 3 + bytes.len(), numbers);
    Ok(place + size)
}

// Puts numbers into the buffer from a place on, each in four bytes, highest byte first.
fn put_numbers(buffer: &mut [u8], place: usize, numbers: &[u32])
    requires { place + 4 * length numbers.now ≤ length buffer.old }
    ensures { buffer.new ≡ put buffer.old place (quads_of numbers.now) }
{
    // By index: tried as a `zip` with `chunks_exact_mut`, after which no byte of the buffer is known.
    for (i, number) in numbers.iter().enumerate() {
        put(buffer, place + 4 * i, &number.to_be_bytes());
    }
}

// Puts bytes into the buffer from a place on.
fn put(buffer: &mut [u8], place: usize, bytes: &[u8])
    requires { place + length bytes.now ≤ length buffer.old }
    ensures { buffer.new ≡ put buffer.old place bytes.now }
{
    buffer[place..place + bytes.len()].copy_from_slice(bytes);
}
