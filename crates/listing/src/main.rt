// Lists the messages on standard input: what each says, field by field, and where they break.
#![tactic(auto)]

use lister::listing::Listing;
use messages::input::INPUT_LIMIT;
use std::io;
use std::io::Read;

fn main(rt: HostRuntime) -> io::Result<()> {
    let mut bytes = Vec::with_capacity(rt.alloc(), INPUT_LIMIT + 1)?;
    // `as`, since no `From` goes from `usize` to `u64`; it is proved to lose nothing.
    rt.stdin()
        .take(INPUT_LIMIT as u64 + 1)
        .read_to_end(&mut bytes)?;
    for line in Listing::new(bytes.as_slice()) {
        println!(rt; "{line}")?;
    }
    Ok(())
}
