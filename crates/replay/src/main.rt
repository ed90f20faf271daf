// Replays the list of recorded answers (crates/replay/README.md): prints the first difference, or how many cases had each answer.
#![tactic(auto)]

ghost use Rattle.std.specs.Prelude.{◌≡◌, length};

use listing::text::Cursor;
use listing::{say, text};
use std::io;
use std::io::Write;

mod case;

// A line that is empty or begins with # or 0 holds no case.
fn holds_case(line: &[u8]) -> bool {
    !matches!(line, [] | [0 | b'#', ..])
}

// The number of the answer that a line lists: the first after its mark.
fn listed_answer(line: &[u8]) -> Option<u32> {
    let mut line = Cursor::new(line);
    line.skip_to(b'>')?;
    line.pass(b'>')?;
    line.field()
}

// A first word with a mark in it hides the answer's, and counts as 0.
fn count_answer(line: &[u8], counts: &mut [u32; 12]) {
    let answer = listed_answer(line).unwrap_or(0) % 12;
    let count = &mut counts[answer as usize];
    *count = count.wrapping_add(1);
}

// Every line in turn, until one differs; a case is counted by the answer that it lists.
fn replay_all<W: Write>(
    out: &mut W,
    list: &[u8],
    room: &mut [u8; 65537],
    listed_room: &mut [u8; 65537],
) -> io::Result<()> {
    let mut counts = [0u32; 12];
    let mut number: u32 = 0;
    let mut rest = list;
    // no `for` over the library's `split`: on a list of empty lines it took a quarter more time
    while !rest.is_empty() {
        let (line, more) = text::split_line(rest);
        rest = more;
        number = number.wrapping_add(1);
        if holds_case(line) {
            if let Err(difference) = case::replay_line(line, room, listed_room) {
                return say::print_difference(out, number, difference);
            }
            count_answer(line, &mut counts);
        }
    }
    say::print_counts(out, &counts)
}

// Room for the list: fixed, since the program takes no memory from an allocator.
fn list_buffer() -> [u8; 524288]
    ensures { 524288 ≡ length result }
{
    [0; 524288]
}

// Room for the longest memory, and a byte more; fixed like the list's. A function for each, since `main` with the literals did not prove in time.
fn memory_buffer() -> [u8; 65537] {
    [0; 65537]
}

fn main(rt: HostRuntime) -> io::Result<()> {
    let mut list = list_buffer();
    let mut room = memory_buffer();
    let mut listed_room = memory_buffer();
    let n = input::load(&mut rt.stdin(), &mut list)?;
    replay_all(&mut rt.stdout(), &list[..n], &mut room, &mut listed_room)
}
