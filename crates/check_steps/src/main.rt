// Reads a pack of days on standard input and prints for each what the program `steps` prints for it. A day broken off, or longer than
// 131,072 bytes, ends the run.

#![tactic(auto)]

use std::io;
use text_steps::steps_text::print;

fn main(rt: HostRuntime) -> io::Result<()> {
    let mut output = rt.stdout();
    let mut space = [0u8; 131072];
    pack::for_each(&mut rt.stdin(), &mut space, |day| print(&mut output, day))
}
