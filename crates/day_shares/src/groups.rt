// Groups of neighbouring schedules whose totals are all above 0 or all below 0, and sums over them.
ghost use Rattle.std.specs.Prelude.{◌≡◌, ◌<◌};
ghost use Rattle.rules.specs.Fold.{five, at_z};
ghost use Rattle.day_shares.specs.Groups.{sign_word, link_of, link_at, before, whole, Small};

use std::array::from_fn;

// The sign of a total.
const ABOVE: u32 = 1;

const BELOW: u32 = 2;

const NEITHER: u32 = 0;

fn sign(x: i64) -> u32
    ensures { result ≡ sign_word x }
{
    if 0 < x {
        ABOVE
    } else if x < 0 {
        BELOW
    } else {
        NEITHER
    }
}

pub fn signs(t: [i64; 5]) -> [u32; 5]
    ensures { result ≡ five (λ s. sign_word (at_z t s)) }
{
    t.map(sign)
}

// 1 where a schedule of sign b is of one group with the one before it, of sign a.
fn link(a: u32, b: u32) -> u32
    ensures { result ≡ link_of a b }
{
    if a == NEITHER { 0 } else { u32::from(a == b) }
}

// The same of schedule s, from the five signs.
fn link_to(g: [u32; 5], s: usize) -> u32
    requires { s < 5 }
    ensures { result ≡ link_at g s }
{
    if s == 0 { 0 } else { link(g[s - 1], g[s]) }
}

pub fn links(g: [u32; 5]) -> [u32; 5]
    ensures { result ≡ five (link_at g) }
{
    from_fn(|s| link_to(g, s))
}

// For each schedule the sum of x over those of its group that are before it.
pub fn sums_before(l: [u32; 5], x: [u64; 5]) -> [u64; 5]
    requires { Small x }
    ensures { result ≡ five (before l x) }
{
    let mut sums = [0; 5];
    for s in 1..5 {
        sums[s] = if l[s] == 0 { 0 } else { sums[s - 1] + x[s - 1] };
    }
    sums
}

// For each schedule the sum of x over its group, from the last one back.
pub fn group_sums(l: [u32; 5], x: [u64; 5]) -> [u64; 5]
    requires { Small x }
    ensures { result ≡ five (whole l x) }
{
    let mut sums = sums_before(l, x);
    sums[4] += x[4];
    for s in (0..4).rev() {
        sums[s] = if l[s + 1] == 0 {
            sums[s] + x[s]
        } else {
            sums[s + 1]
        };
    }
    sums
}
