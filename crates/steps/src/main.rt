// Reads a day on standard input and prints for each line `line K PARTICIPANT POINT INJ|WDR COUNT` and for each of
// its steps `step J END WIDTH A`, five rows `S PRICE FLAG O E AGINO MSIQ C INITIAL REVISED MODIFIED FINAL`, and `matches` with the ten
// matches, then the line's excess; or `refused` and the number. Of a file of more than 65,536 bytes the first are kept and the others
// counted.

#![tactic(auto)]

ghost use Rattle.std.specs.Prelude.{OnOk};
ghost use Rattle.day_input.specs.Stream.{Answered};
ghost use Rattle.text_steps.specs.Text.{steps_text};
ghost use Rattle.steps.specs.Long.{steps_long};

use day_input::{DayText, answer};
use std::io;
use std::io::{Read, Write};
use text_steps::steps_text;

struct Steps;

impl DayText for Steps {
    ghost text = { steps_text };

    ghost long = { steps_long };

    fn print<W: Write>(output: &mut W, day: &[u8]) -> io::Result<()> {
        steps_text::print(output, day)
    }
}

// Reads a day to its end and writes the text of its steps.
fn print_steps<R: Read, W: Write>(input: &mut R, output: &mut W) -> io::Result<()>
    ensures { OnOk result (Answered steps_text (R.remaining input.old) (W.contents output.old) (W.contents output.new)) }
{
    answer::<Steps, R, W>(input, output)
}

fn main(rt: HostRuntime) -> io::Result<()> {
    print_steps(&mut rt.stdin(), &mut rt.stdout())
}
