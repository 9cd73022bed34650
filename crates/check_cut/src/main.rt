// Reads a pack of lines on standard input and prints the text of each line's cut. A line broken off, or longer than 1,024 bytes, ends the
// run.

#![tactic(auto)]

use cutter_text::answer::print_line;
use std::io;

fn main(rt: HostRuntime) -> io::Result<()> {
    let mut output = rt.stdout();
    let mut space = [0u8; 1024];
    pack::for_each(&mut rt.stdin(), &mut space, |line| {
        print_line(&mut output, &mut [0; 8192], line)
    })
}
