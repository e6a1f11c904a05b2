// How much a program takes in.
ghost use Rattle.std.specs.Prelude.{◌≡◌, length};
ghost use Rattle.messages.specs.Input.{limited};

use crate::fault::ReaderFault;

// The most bytes that a program takes in.
pub const INPUT_LIMIT: usize = 65_536;

// Whether a program takes in these bytes.
pub fn check_input(bytes: &[u8]) -> Result<(), ReaderFault>
    ensures { result ≡ limited (length bytes.now) }
{
    if bytes.len() > INPUT_LIMIT {
        return Err(ReaderFault::InputTooLong);
    }
    Ok(())
}
