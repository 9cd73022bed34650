// a * b / c with its remainder, by way of the whole product of 128 bits.

#![tactic(auto)]

ghost use Rattle.std.specs.Prelude.{◌≡◌, ◌+◌, ◌*◌, ◌/◌, ◌%◌, ◌<◌, ◌≤◌, ◌^◌};
ghost use Rattle.numbers_wide.specs.Quotients.{Quotient};

// The radix of the division: a digit is half a word of 64 bits.
const RADIX: u64 = 4294967296;

#[derive(Clone, Copy)]
pub struct Division {
    pub quotient: u64,
    pub remainder: u64,
}

// Quotient and remainder of a * b / c, of which no bit is lost. The quotient is at most a, since b is at most c.
pub fn multiply_divide(a: u64, b: u64, c: u64) -> Division
    requires { (0 < c) × (b ≤ c) }
    ensures { (result.quotient ≡ a * b / c) × (result.remainder ≡ a * b % c) }
{
    let shift = c.leading_zeros();
    let scaled = divide(multiply(a, shifted(b, shift)), shifted(c, shift));
    let remainder = scaled.remainder >> shift;
    Division {
        quotient: scaled.quotient,
        remainder,
    }
}

// x * 2^s, of which no bit is lost.
fn shifted(x: u64, s: u32) -> u64
    requires { (s < 64) × (x * 2 ^ s < 2 ^ 64) }
    ensures { result ≡ x * 2 ^ s }
{
    x << s
}

// a * b
#[tactic(auto, using(crate::proofs::Laws::product_fits))]
fn multiply(a: u64, b: u64) -> u128
    ensures { result ≡ a * b }
{
    a as u128 * b as u128
}

// A product divided by c, which has its highest bit set and is above the product's high word. Digit by digit, since `/` on u128 is slower
// and calls a function outside of the archives, in which only memcpy and memset are called.
fn divide(product: u128, c: u64) -> Division
    requires { (2 ^ 63 ≤ c) × (product / 2 ^ 64 < c) }
    ensures { Quotient product c result.quotient result.remainder }
{
    let upper = divide_digit(
        (product >> 64) as u64,
        (product >> 32 & 0xFFFF_FFFF) as u32,
        c,
    );
    let lower = divide_digit(upper.remainder, (product & 0xFFFF_FFFF) as u32, c);
    Division {
        quotient: upper.quotient * RADIX + lower.quotient,
        remainder: lower.remainder,
    }
}

// One digit of a quotient: h * 2^32 + d divided by c, which has its highest bit set. The quotient of h by the high digit of c is the
// digit, or 1 or 2 more.
fn divide_digit(h: u64, d: u32, c: u64) -> Division
    requires { (2 ^ 63 ≤ c) × (h < c) }
    ensures { Quotient (h * 2 ^ 32 + d) c result.quotient result.remainder }
{
    let top = c / RADIX;
    let estimate = h / top;
    let rest = h % top * RADIX + u64::from(d);
    let taken = estimate * (c % RADIX);
    if taken <= rest {
        return Division {
            quotient: estimate,
            remainder: rest - taken,
        };
    }
    let excess = taken - rest;
    if excess <= c {
        Division {
            quotient: estimate - 1,
            remainder: c - excess,
        }
    } else {
        Division {
            quotient: estimate - 2,
            remainder: c - (excess - c),
        }
    }
}
