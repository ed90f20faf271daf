// Runs the image on standard input and prints what came of it (document 01, section 8).
#![tactic(auto)]

mod page;
mod print;
mod text;

use std::io;
use std::io::Write;

fn main(rt: HostRuntime) -> io::Result<()> {
    // one byte more than memory may have, so that a longer image is seen to be too long; a fixed room, since the program takes no memory from an allocator
    let mut room = [0u8; 65537];
    let n = input::load(&mut rt.stdin(), &mut room)?;
    let page = page::run_image(&mut room[..n]);
    write!(&mut rt.stdout(), "{page}")
}
