// Reads a pack of days on standard input and prints the uplift of each, as the program `uplift` does. A day broken off, or longer than
// 65,536 bytes, ends the run.

#![tactic(auto)]

use std::io;
use std::io::Write;
use text_uplift::day_line;

// Prints the line of a day.
fn print_line<W: Write>(output: &mut W, day: &[u8]) -> io::Result<()> {
    let mut out = [0u8; 128];
    let end = day_line(day, &mut out);
    output.write_all(&out[..end])
}

fn main(rt: HostRuntime) -> io::Result<()> {
    let mut output = rt.stdout();
    let mut space = [0u8; 65536];
    pack::for_each(
        &mut rt.stdin(),
        &mut space,
        |day| print_line(&mut output, day),
    )
}
