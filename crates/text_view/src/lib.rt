// The text of one step's figures, and of a line's excess, written into lent bytes from a place on.

#![tactic(auto)]

ghost use Rattle.std.specs.Prelude.{◌≡◌, ◌+◌, ◌≤◌, ◌<◌, length};
ghost use Rattle.rules.specs.Fold.{joined};
ghost use Rattle.text.specs.Put.{Written};
ghost use Rattle.text.specs.Rows.{words};
ghost use Rattle.text_view.specs.ViewText.{quantities_in, payments_text, schedule_row, step_head, matches_row, view_text, excess_row};

use rules::{Excess, View};
use text::digits::{put_byte, put_bytes, put_decimal};
use text::number_rows::{put_number_in, put_words};

// Price, flag, O, E, AGINO, MSIQ and C in schedule s.
fn quantities_in(v: View, s: usize) -> [u32; 7]
    requires { s < 5 }
    ensures { result ≡ quantities_in v s }
{
    [
        v.price[s],
        v.flag[s],
        v.operating[s],
        v.pricing[s],
        v.agino[s],
        v.msiq[s],
        v.constrained[s],
    ]
}

// The four payments in schedule s.
fn put_payments(out: &mut [u8], at: usize, v: View, s: usize) -> usize
    requires { (s < 5) × (at + 88 ≤ length out.old) }
    ensures { Written 88 out.old at (payments_text v s) result out.new }
{
    let a = put_number_in(out, at, v.initial, s);
    let b = put_number_in(out, a, v.revised, s);
    let c = put_number_in(out, b, v.modified, s);
    put_number_in(out, c, v.finals, s)
}

// The row of schedule s.
fn put_row(out: &mut [u8], at: usize, v: View, s: usize) -> usize
    requires { (s < 5) × (at + 256 ≤ length out.old) }
    ensures { Written 256 out.old at (schedule_row v s) result out.new }
{
    let row = quantities_in(v, s);
    let a = put_decimal(out, at, (s + 1) as u64);
    let b = put_words(out, a, &row);
    let c = put_payments(out, b, v, s);
    put_byte(out, c, b'\n')
}

// The rows of all schedules. The loop maintains that those of the first s are put.
fn put_rows(out: &mut [u8], at: usize, v: View) -> usize
    requires { at + 1280 ≤ length out.old }
    ensures { Written 1280 out.old at (joined 5 (schedule_row v)) result out.new }
{
    let mut p = at;
    for s in 0..5 {
        p = put_row(out, p, v, s);
    }
    p
}

// The heading of step j.
fn put_step_head(out: &mut [u8], at: usize, j: usize, v: View) -> usize
    requires { at + 89 ≤ length out.old }
    ensures { Written 89 out.old at (step_head j v) result out.new }
{
    let a = put_bytes(out, at, b"step ");
    let b = put_decimal(out, a, j as u64);
    let c = put_words(out, b, &[v.end, v.width, v.actual]);
    put_byte(out, c, b'\n')
}

// The row of the matches.
fn put_matches(out: &mut [u8], at: usize, m: [u32; 10]) -> usize
    requires { at + 218 ≤ length out.old }
    ensures { Written 218 out.old at (matches_row m) result out.new }
{
    let a = put_bytes(out, at, b"matches");
    let b = put_words(out, a, &m);
    put_byte(out, b, b'\n')
}

// The text of step j with the figures v.
pub fn put_view(out: &mut [u8], at: usize, j: usize, v: View) -> usize
    requires { at + 1587 ≤ length out.old }
    ensures { Written 1587 out.old at (view_text j v) result out.new }
{
    let a = put_step_head(out, at, j, v);
    let b = put_rows(out, a, v);
    put_matches(out, b, v.matches)
}

// Five numbers, each after a space.
fn put_five(out: &mut [u8], at: usize, row: [u32; 5]) -> usize
    requires { at + 105 ≤ length out.old }
    ensures { Written 105 out.old at (words row) result out.new }
{
    put_words(out, at, &row)
}

// The row of a line's excess.
pub fn put_excess(out: &mut [u8], at: usize, x: Excess) -> usize
    requires { at + 263 ≤ length out.old }
    ensures { Written 263 out.old at (excess_row x) result out.new }
{
    let a = put_bytes(out, at, b"excess pricing");
    let b = put_five(out, a, x.pricing);
    let c = put_bytes(out, b, b" operating");
    let d = put_five(out, c, x.operating);
    let e = put_bytes(out, d, b" actual");
    let f = put_words(out, e, &[x.actual]);
    put_byte(out, f, b'\n')
}
