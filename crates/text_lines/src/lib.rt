// The lines of the report (document 01, K10), written into lent bytes from a place on.
// Each function answers the place after its text. `Written` of crate `text` (specs/Put.antt) says what stands in the bytes then.

#![tactic(auto)]

ghost use Rattle.std.specs.Prelude.{◌+◌, ◌≤◌, length};
ghost use Rattle.rules.specs.Fold.{at_z};
ghost use Rattle.rules.specs.Report.{side_text};
ghost use Rattle.text.specs.Put.{Written};
ghost use Rattle.text_lines.specs.Lines.{line_ids, side_steps, line_start, line_text_of, heading, totals_text};

use text::digits::{put_byte, put_bytes, put_decimal};
use text::number_rows::{put_five, put_numbers};
use text::refused::put_numbered;

// The text of a side.
pub fn put_side(out: &mut [u8], at: usize, side: u32) -> usize
    requires { at + 3 ≤ length out.old }
    ensures { Written 3 out.old at (side_text side) result out.new }
{
    if side == 1 {
        put_bytes(out, at, b"WDR")
    } else {
        put_bytes(out, at, b"INJ")
    }
}

// Participant and point, with a space between them.
pub fn put_ids(out: &mut [u8], at: usize, participant: u32, point: u32) -> usize
    requires { at + 41 ≤ length out.old }
    ensures { Written 41 out.old at (line_ids participant point) result out.new }
{
    let a = put_decimal(out, at, u64::from(participant));
    let b = put_byte(out, a, b' ');
    put_decimal(out, b, u64::from(point))
}

// The side between spaces, and the steps.
pub fn put_side_steps(out: &mut [u8], at: usize, side: u32, steps: u32) -> usize
    requires { at + 25 ≤ length out.old }
    ensures { Written 25 out.old at (side_steps side steps) result out.new }
{
    let a = put_byte(out, at, b' ');
    let b = put_side(out, a, side);
    let c = put_byte(out, b, b' ');
    put_decimal(out, c, u64::from(steps))
}

// A line of the report without its end.
pub fn put_line_start(
    out: &mut [u8],
    at: usize,
    participant: u32,
    point: u32,
    side: u32,
    steps: u32,
    payments: [i64; 5],
) -> usize
    requires { at + 176 ≤ length out.old }
    ensures { Written 176 out.old at (line_start participant point side steps (at_z payments)) result out.new }
{
    let a = put_ids(out, at, participant, point);
    let b = put_side_steps(out, a, side, steps);
    put_numbers(out, b, payments)
}

// A line of the report.
pub fn put_line(
    out: &mut [u8],
    at: usize,
    participant: u32,
    point: u32,
    side: u32,
    steps: u32,
    payments: [i64; 5],
) -> usize
    requires { at + 177 ≤ length out.old }
    ensures { Written 177 out.old at (line_text_of participant point side steps (at_z payments)) result out.new }
{
    let end = put_line_start(out, at, participant, point, side, steps, payments);
    put_byte(out, end, b'\n')
}

// The report's first line, of n lines.
pub fn put_heading(out: &mut [u8], at: usize, n: u32) -> usize
    requires { at + 25 ≤ length out.old }
    ensures { Written 25 out.old at (heading n) result out.new }
{
    put_numbered(out, at, b"day ", n)
}

// The lines of the totals and the adjusted totals.
pub fn put_totals(out: &mut [u8], at: usize, total: [i64; 5], adjusted: [i64; 5]) -> usize
    requires { at + 235 ≤ length out.old }
    ensures { Written 235 out.old at (totals_text (at_z total) (at_z adjusted)) result out.new }
{
    let a = put_bytes(out, at, b"total");
    let b = put_five(out, a, total);
    let c = put_bytes(out, b, b"adjusted");
    put_five(out, c, adjusted)
}
