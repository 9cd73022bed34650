// Reads a day of up to 4,096 bytes on standard input and prints line parts of it, also for a line far beyond the last and for headers
// that are refused. A line has k, the number answered, the length of the part lent, and the part's first four bytes where it has any.

#![tactic(auto)]

use day_header::{check_line_part, line_part};
use refusals::number_of;
use std::io;
use std::io::Write;
use streams::read_full;

fn show<W: Write>(output: &mut W, day: &[u8], k: usize) -> io::Result<()> {
    let part = line_part(day, k);
    let number = number_of(check_line_part(day, k));
    write!(output, "{k} {number} {}", part.len())?;
    for byte in part.iter().take(4) {
        write!(output, " {byte}")?;
    }
    writeln!(output)
}

// Lines of the day's three, the first beyond them, and the greatest numbers there are.
fn show_lines<W: Write>(output: &mut W, day: &[u8]) -> io::Result<()> {
    for k in [0, 1, 2, 3, 4, 1 << 63, usize::MAX] {
        show(output, day, k)?;
    }
    Ok(())
}

// Parts of the bytes read that are refused as a day: too short, of another length than the header says, and with too many lines.
fn show_refused<W: Write>(output: &mut W, space: &[u8; 4096]) -> io::Result<()> {
    for length in [0, 63, 64] {
        if let Some(day) = space.get(..length) {
            show(output, day, 0)?;
        }
    }
    show(output, &space[1..], usize::MAX)
}

fn main(rt: HostRuntime) -> io::Result<()> {
    let mut space = [0u8; 4096];
    let length = read_full(&mut rt.stdin(), &mut space)?;
    let mut output = rt.stdout();
    show_lines(&mut output, &space[..length])?;
    show_refused(&mut output, &space)
}
