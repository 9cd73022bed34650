// The uplift program's line of a day, written into lent bytes (document 02, F-1).

#![tactic(auto)]

ghost use Rattle.std.specs.Prelude.{◌≤◌, [], cond, ltb, length};
ghost use Rattle.rules.specs.Fold.{at_z};
ghost use Rattle.rules.specs.Report.{uplift_report};
ghost use Rattle.text.specs.Put.{Written};
ghost use Rattle.text_uplift.specs.Lines.{line_most, shares_line};

use day_uplift::uplift;
use text::digits::put_bytes;
use text::number_rows::put_five;
use text::refused::put_refused;

// No line takes more bytes: the word, five numbers of at most 21 bytes, each after a space, the line's end.
pub const LINE_MOST: usize = 117;

// The word and the five shares.
fn put_shares(out: &mut [u8], shares: [i64; 5]) -> usize
    requires { line_most ≤ length out.old }
    ensures { Written line_most out.old 0 (shares_line (at_z shares)) result out.new }
{
    let p = put_bytes(out, 0, b"uplift");
    put_five(out, p, shares)
}

// Works out a day's uplift and puts its line. It answers how many bytes it put: none where fewer than `LINE_MOST` are lent.
pub fn day_line(day: &[u8], out: &mut [u8]) -> usize
    ensures { Written (length out.old) out.old 0 (cond (ltb (length out.old) line_most) [] (uplift_report day.now)) result out.new }
{
    if out.len() < LINE_MOST {
        return 0;
    }
    match uplift(day) {
        Ok(shares) => put_shares(out, shares),
        Err(refusal) => put_refused(out, 0, u32::from(refusal)),
    }
}
