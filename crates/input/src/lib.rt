// Standard input, up to the room that there is for it.
#![tactic(auto)]

ghost use Rattle.std.specs.Prelude.{◌≡◌, ◌≤◌, length, take, IfOk};
ghost use Rattle.std.specs.Io.KnownBytes.{Consumes};

use std::io;
use std::io::Read;

// Reads until the room is full, the input ends or a read fails; how many bytes were read.
pub fn load<R: Read>(reader: &mut R, room: &mut [u8]) -> io::Result<usize>
    ensures ok { IfOk result (λ count. (count ≤ length room.new) × (count ≡ length (take count room.new))) }
    ensures room { length room.new ≡ length room.old }
    ensures bytes { IfOk result (λ count. Consumes (R.remaining reader.old) (R.remaining reader.new) (take count room.new)) }
{
    // no `for` over the room: a read may give less than there is room for
    let mut n = 0;
    while n < room.len() {
        let more = reader.read(&mut room[n..])?;
        if more == 0 {
            break;
        }
        n += more;
    }
    Ok(n)
}
