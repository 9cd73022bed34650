// Reads one line's 660 bytes from standard input and prints the text of its cut.

#![tactic(auto)]

use cutter_text::answer::print_line;
use std::io;
use streams::read_full;

fn main(rt: HostRuntime) -> io::Result<()> {
    let mut line = [0u8; 65536];
    let n = read_full(&mut rt.stdin(), &mut line)?;
    let mut out = [0u8; 65536];
    print_line(&mut rt.stdout(), &mut out, &line[..n])
}
