// Reads a day from standard input and prints `uplift` and its five shares (document 02, F-1), or `refused` and the number. Of a file of more
// than 65,536 bytes the first are kept and the others counted.

#![tactic(auto)]

ghost use Rattle.std.specs.Prelude.{OnOk};
ghost use Rattle.rules.specs.Report.{uplift_report};
ghost use Rattle.day_input.specs.Stream.{Answered};
ghost use Rattle.uplift.specs.Long.{uplift_long};

use day_input::{DayText, answer};
use std::io;
use std::io::{Read, Write};
use text_uplift::day_line;

struct Line;

impl DayText for Line {
    ghost text = { uplift_report };

    ghost long = { uplift_long };

    fn print<W: Write>(output: &mut W, day: &[u8]) -> io::Result<()> {
        let mut out = [0u8; 128];
        let end = day_line(day, &mut out);
        output.write_all(&out[..end])
    }
}

// Reads a day to its end and writes the line of its uplift.
fn print_uplift<R: Read, W: Write>(input: &mut R, output: &mut W) -> io::Result<()>
    ensures { OnOk result (Answered uplift_report (R.remaining input.old) (W.contents output.old) (W.contents output.new)) }
{
    answer::<Line, R, W>(input, output)
}

fn main(rt: HostRuntime) -> io::Result<()> {
    print_uplift(&mut rt.stdin(), &mut rt.stdout())
}
