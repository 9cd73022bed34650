// Numbers one after another, each after a space, written into lent bytes from a place on.
ghost use Rattle.std.specs.Prelude.{◌+◌, ◌*◌, ◌≤◌, ◌<◌, ◌++◌, length};
ghost use Rattle.rules.specs.Fold.{at_z};
ghost use Rattle.rules.specs.Report.{signed_decimal, space, number_after, five_numbers};
ghost use Rattle.text.specs.Put.{Written};
ghost use Rattle.text.specs.Rows.{numbers, words};

use crate::digits::{put_byte, put_signed, put_spaced};

// Numbers, each after a space. The loop maintains that those before `x` are put.
pub fn put_words(out: &mut [u8], at: usize, v: &[u32]) -> usize
    requires { at + 21 * length v.now ≤ length out.old }
    ensures { Written (21 * length v.now) out.old at (words v.now) result out.new }
{
    let mut p = at;
    for x in v {
        p = put_spaced(out, p, u64::from(*x));
    }
    p
}

// A space and a signed number.
fn put_spaced_signed(out: &mut [u8], at: usize, v: i64) -> usize
    requires { at + 22 ≤ length out.old }
    ensures { Written 22 out.old at (space ++ signed_decimal v) result out.new }
{
    let p = put_byte(out, at, b' ');
    put_signed(out, p, v)
}

// Of five numbers that of schedule s, after a space.
pub fn put_number_in(out: &mut [u8], at: usize, v: [i64; 5], s: usize) -> usize
    requires { (s < 5) × (at + 22 ≤ length out.old) }
    ensures { Written 22 out.old at (number_after (at_z v) s) result out.new }
{
    put_spaced_signed(out, at, v[s])
}

// Five numbers, each after a space. The loop maintains that the first s are put.
pub fn put_numbers(out: &mut [u8], at: usize, v: [i64; 5]) -> usize
    requires { at + 110 ≤ length out.old }
    ensures { Written 110 out.old at (numbers (at_z v)) result out.new }
{
    let mut p = at;
    for s in 0..5 {
        p = put_number_in(out, p, v, s);
    }
    p
}

// Five numbers and the line's end.
pub fn put_five(out: &mut [u8], at: usize, v: [i64; 5]) -> usize
    requires { at + 111 ≤ length out.old }
    ensures { Written 111 out.old at (five_numbers (at_z v)) result out.new }
{
    let p = put_numbers(out, at, v);
    put_byte(out, p, b'\n')
}
