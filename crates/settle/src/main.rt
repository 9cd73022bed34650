// Reads a day from standard input and prints its report as document 01's K10 has it, or `refused` and the number. Of a file of more than
// 65,536 bytes the first are kept and the others counted.

#![tactic(auto)]

ghost use Rattle.std.specs.Prelude.{OnOk};
ghost use Rattle.rules.specs.Report.{report_text};
ghost use Rattle.text_long.specs.Report.{report_long};
ghost use Rattle.day_input.specs.Stream.{Answered};

use day_input::{DayText, answer};
use std::io;
use std::io::{Read, Write};
use text_day::day_report;

struct Report;

impl DayText for Report {
    ghost text = { report_text };

    ghost long = { report_long };

    fn print<W: Write>(output: &mut W, day: &[u8]) -> io::Result<()> {
        let mut out = [0u8; 12288];
        let end = day_report(day, &mut out);
        output.write_all(&out[..end])
    }
}

// Reads a day to its end and writes its report.
fn report_day<R: Read, W: Write>(input: &mut R, output: &mut W) -> io::Result<()>
    ensures { OnOk result (Answered report_text (R.remaining input.old) (W.contents output.old) (W.contents output.new)) }
{
    answer::<Report, R, W>(input, output)
}

fn main(rt: HostRuntime) -> io::Result<()> {
    report_day(&mut rt.stdin(), &mut rt.stdout())
}
