// Bytes and decimal numbers, written into lent bytes from a place on. Each function answers the place after its text.
// `Written` of specs/Put.antt says what stands in the bytes then.
ghost use Rattle.std.specs.Prelude.{◌+◌, ◌≤◌, [], ◌∷◌, ◌++◌, length};
ghost use Rattle.rules.specs.Report.{decimal, signed_decimal, space};
ghost use Rattle.text.specs.Put.{Written};

// One byte.
pub fn put_byte(out: &mut [u8], at: usize, b: u8) -> usize
    requires { at + 1 ≤ length out.old }
    ensures { Written 1 out.old at (b ∷ []) result out.new }
{
    out[at] = b;
    at + 1
}

// A byte string.
pub fn put_bytes(out: &mut [u8], at: usize, text: &[u8]) -> usize
    requires { at + length text.now ≤ length out.old }
    ensures { Written (length text.now) out.old at text.now result out.new }
{
    let end = at + text.len();
    out[at..end].copy_from_slice(text);
    end
}

// A number in decimal, of at most twenty digits.
pub fn put_decimal(out: &mut [u8], at: usize, v: u64) -> usize
    requires { at + 20 ≤ length out.old }
    ensures { Written 20 out.old at (decimal v) result out.new }
{
    if v < 10 {
        return put_byte(out, at, b'0' + v as u8);
    }
    let p = put_decimal(out, at, v / 10);
    put_byte(out, p, b'0' + (v % 10) as u8)
}

// A number with a minus sign before it where it is below 0.
pub fn put_signed(out: &mut [u8], at: usize, v: i64) -> usize
    requires { at + 21 ≤ length out.old }
    ensures { Written 21 out.old at (signed_decimal v) result out.new }
{
    if v < 0 {
        let p = put_byte(out, at, b'-');
        put_decimal(out, p, v.unsigned_abs())
    } else {
        put_decimal(out, at, v.unsigned_abs())
    }
}

// A space and a number.
pub fn put_spaced(out: &mut [u8], at: usize, v: u64) -> usize
    requires { at + 21 ≤ length out.old }
    ensures { Written 21 out.old at (space ++ decimal v) result out.new }
{
    let p = put_byte(out, at, b' ');
    put_decimal(out, p, v)
}
