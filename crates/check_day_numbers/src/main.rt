// Reads a pack of days on standard input and prints the number of each, one a line. A day broken off, or longer than 131,072 bytes, ends
// the run.

#![tactic(auto)]

use day::check_day;
use refusals::number_of;
use std::io;
use std::io::Write;

fn main(rt: HostRuntime) -> io::Result<()> {
    let mut output = rt.stdout();
    let mut space = [0u8; 131072];
    pack::for_each(
        &mut rt.stdin(),
        &mut space,
        |day| writeln!(output, "{}", number_of(check_day(day))),
    )
}
