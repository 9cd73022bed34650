// The rows of a cutter's answer as text: counts, prices, words, written into lent bytes from a place on.
ghost use Rattle.std.specs.Prelude.{◌≡◌, ◌++◌, ◌+◌, ◌*◌, ◌≤◌, ◌<◌, length};
ghost use Rattle.rules.specs.Fold as fold;
ghost use Rattle.rules.specs.Fold.{joined, five};
ghost use Rattle.rules.specs.Report.{decimal};
ghost use Rattle.cutter.specs.Arrays.{price_in};
ghost use Rattle.text.specs.Put.{Written};
ghost use Rattle.cutter_text.specs.CutRows.{row_text, cut_step_text, count_text};

use cutter::read_step::price_row;
use rules::Cut;
use text::digits::{put_byte, put_bytes, put_decimal, put_spaced};

// Five numbers, each after a space, and the line's end. The loop maintains that those before v[s] are put.
fn put_five(out: &mut [u8], at: usize, v: [u64; 5]) -> usize
    requires { at + 106 ≤ length out.old }
    ensures { Written 106 out.old at (row_text (fold.at v)) result out.new }
{
    let mut p = at;
    for s in 0..5 {
        p = put_spaced(out, p, v[s]);
    }
    put_byte(out, p, b'\n')
}

// A line of a word and five numbers.
pub fn put_row(out: &mut [u8], at: usize, word: &[u8], v: [u64; 5]) -> usize
    requires { at + length word.now + 106 ≤ length out.old }
    ensures { Written (length word.now + 106) out.old at (word.now ++ row_text (fold.at v)) result out.new }
{
    let p = put_bytes(out, at, word);
    put_five(out, p, v)
}

// A step's line: its end and its five prices.
fn put_step(out: &mut [u8], at: usize, end: u32, price: [u64; 5]) -> usize
    requires { at + 126 ≤ length out.old }
    ensures { Written 126 out.old at (decimal end ++ row_text (fold.at price)) result out.new }
{
    let p = put_decimal(out, at, u64::from(end));
    put_five(out, p, price)
}

// The prices of step k.
fn prices_of(r: Cut, k: usize) -> [u64; 5]
    requires { k < 56 }
    ensures { result ≡ five (price_in r.prices k) }
{
    price_row(&r.prices, k).map(u64::from)
}

// The lines of the first `count` steps. The loop maintains that those of the first k are put.
pub fn put_steps(out: &mut [u8], at: usize, r: Cut, count: usize) -> usize
    requires { (count ≤ 56) × (at + 126 * count ≤ length out.old) }
    ensures { Written (126 * count) out.old at (joined count (cut_step_text r)) result out.new }
{
    let mut p = at;
    for k in 0..count {
        p = put_step(out, p, r.ends[k], prices_of(r, k));
    }
    p
}

// The first line.
pub fn put_count(out: &mut [u8], count: u32) -> usize
    requires { 25 ≤ length out.old }
    ensures { Written 25 out.old 0 (count_text count) result out.new }
{
    let a = put_bytes(out, 0, b"cut ");
    let b = put_decimal(out, a, u64::from(count));
    put_byte(out, b, b'\n')
}
