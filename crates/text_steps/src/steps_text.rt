// What the program `steps` prints, written into lent bytes: for each line of a day its heading, for each of its steps the figures that
// the step view answers, and its excess.
ghost use Rattle.std.specs.Prelude.{◌≡◌, ◌+◌, ◌*◌, ◌≤◌, ◌<◌, length, OnOk};
ghost use Rattle.std.specs.Io.KnownBytes.{Appends};
ghost use Rattle.rules.specs.Fold.{joined};
ghost use Rattle.rules.specs.Layout.{line_count};
ghost use Rattle.rules.specs.Steps.{step_count};
ghost use Rattle.rules.specs.Refusals.{day_fault};
ghost use Rattle.text.specs.Put.{Written};
ghost use Rattle.text_steps.specs.Text.{place_text, line_head, line_steps, part_of, steps_text};

use day::check_day;
use layout::fields::{participant, point, side};
use layout::header::{Line, line_count, line_of};
use rules::View;
use std::io;
use std::io::Write;
use text::digits::{put_byte, put_bytes, put_decimal};
use text::refused::put_refused;
use text_lines::{put_ids, put_side_steps};
use text_view::{put_excess, put_view};
use view::line_views::put_views;
use view::refused;

// The bytes that the longest part takes: a line's heading, 56 steps and the excess.
pub const PART_MOST: usize = 93 + 56 * 1587 + 263;

// The lent views, as steps. The loop maintains that the first j are put.
fn put_steps(out: &mut [u8], at: usize, views: &[View]) -> usize
    requires { (length views.now ≤ 56) × (at + 1587 * length views.now ≤ length out.old) }
    ensures { Written (1587 * length views.now) out.old at (joined (length views.now) (place_text views.now)) result out.new }
{
    let mut p = at;
    for j in 0..views.len() {
        p = put_view(out, p, j, views[j]);
    }
    p
}

// The heading of line k, whose bytes are lent with its count of steps.
fn put_line_head(out: &mut [u8], at: usize, k: usize, line: &Line, count: u32) -> usize
    requires { (count ≡ step_count line.now) × (at + 93 ≤ length out.old) }
    ensures { Written 93 out.old at (line_head k line.now) result out.new }
{
    let a = put_bytes(out, at, b"line ");
    let b = put_decimal(out, a, k as u64);
    let c = put_byte(out, b, b' ');
    let d = put_ids(out, c, participant(line), point(line));
    let e = put_side_steps(out, d, side(line), count);
    put_byte(out, e, b'\n')
}

// Line k, all its steps and its excess, which the view of each step has.
fn put_line(out: &mut [u8], at: usize, day: &[u8], k: usize) -> usize
    requires { (day_fault day.now ≡ 0) × (k < line_count day.now) × (at + 89228 ≤ length out.old) }
    ensures { Written 89228 out.old at (line_steps day.now k) result out.new }
{
    let line = line_of(day, k);
    let mut views = [refused(0); 56];
    let count = put_views(day, k, &mut views);
    let a = put_line_head(out, at, k, line, count as u32);
    let b = put_steps(out, a, &views[..count]);
    put_excess(out, b, views[0].excess)
}

// Part k of a day's text, from the first of the lent bytes on: line k, all its steps and its excess; of a refused day the refusal, which is
// part 0.
// It answers how many bytes it put. It puts none past the last part, and where fewer than `PART_MOST` are lent.
pub fn part(day: &[u8], k: usize, out: &mut [u8]) -> usize
    ensures { Written (length out.old) out.old 0 (part_of day.now k (length out.old)) result out.new }
{
    if out.len() < PART_MOST {
        return 0;
    }
    match check_day(day) {
        Ok(()) => {
            if line_count(day) <= k {
                0
            } else {
                put_line(out, 0, day, k)
            }
        }
        Err(refusal) => {
            if k == 0 {
                put_refused(out, 0, u32::from(refusal))
            } else {
                0
            }
        }
    }
}

// Prints line k of an accepted day by way of the lent bytes.
fn print_line<W: Write>(output: &mut W, day: &[u8], k: usize, out: &mut [u8]) -> io::Result<()>
    requires { (day_fault day.now ≡ 0) × (k < line_count day.now) × (89228 ≤ length out.old) }
    ensures { OnOk result (Appends (W.contents output.old) (W.contents output.new) (line_steps day.now k)) }
{
    let end = put_line(out, 0, day, k);
    output.write_all(&out[..end])
}

// Prints the lines of an accepted day by way of the lent bytes. The loop maintains that the first k are printed.
fn print_lines<W: Write>(output: &mut W, day: &[u8], out: &mut [u8]) -> io::Result<()>
    requires { (day_fault day.now ≡ 0) × (89228 ≤ length out.old) }
    ensures { OnOk result (Appends (W.contents output.old) (W.contents output.new) (joined (line_count day.now) (line_steps day.now))) }
{
    for k in 0..line_count(day) {
        print_line(output, day, k, out)?;
    }
    Ok(())
}

// Prints the text of a day: the refusal, or its lines. The day is checked once.
pub fn print<W: Write>(output: &mut W, day: &[u8]) -> io::Result<()>
    ensures { OnOk result (Appends (W.contents output.old) (W.contents output.new) (steps_text day.now)) }
{
    let mut out = [0u8; PART_MOST];
    match check_day(day) {
        Ok(()) => print_lines(output, day, &mut out),
        Err(refusal) => {
            let end = put_refused(&mut out, 0, u32::from(refusal));
            output.write_all(&out[..end])
        }
    }
}
