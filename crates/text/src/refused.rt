// The line of a refusal, and a byte string with a number, written into lent bytes from a place on.
// Each function answers the place after its text. `Written` of specs/Put.antt says what stands in the bytes then.
ghost use Rattle.std.specs.Prelude.{◌+◌, ◌≤◌, ◌++◌, length};
ghost use Rattle.rules.specs.Report.{decimal, line_feed, refused_line};
ghost use Rattle.text.specs.Put.{Written};

use crate::digits::{put_byte, put_bytes, put_decimal};

// A byte string, a number and the line's end.
pub fn put_numbered(out: &mut [u8], at: usize, text: &[u8], n: u32) -> usize
    requires { at + length text.now + 21 ≤ length out.old }
    ensures { Written (length text.now + 20 + 1) out.old at (text.now ++ decimal n ++ line_feed) result out.new }
{
    let a = put_bytes(out, at, text);
    let b = put_decimal(out, a, u64::from(n));
    put_byte(out, b, b'\n')
}

// What a refusal prints.
pub fn put_refused(out: &mut [u8], at: usize, number: u32) -> usize
    requires { at + 29 ≤ length out.old }
    ensures { Written 29 out.old at (refused_line number) result out.new }
{
    put_numbered(out, at, b"refused ", number)
}
