// Each schedule's share of its group's adjusted totals (document 02, F-1), from the totals and the adjusted totals. Sizes are worked out
// without their signs, which are those of the totals.
ghost use Rattle.std.specs.Prelude.{◌≡◌, cond, ◌*◌, ◌-◌, ◌/◌, ◌%◌, ◌<◌, eqb, ltb, nat_abs, map};
ghost use Rattle.rules.specs.Fold.{five};
ghost use Rattle.rules.specs.Payments.{bit};
ghost use Rattle.rules.specs.Uplift.{share_of};
ghost use Rattle.day_totals.specs.Sizes.{Bounded};
ghost use Rattle.day_shares.specs.Groups.{Small};
ghost use Rattle.day_shares.specs.Parts.{size_at, Divisible, Divisibles, division_at, unit_at, share_at, Adjusts};

use crate::groups::{group_sums, links, signs, sums_before};
use numbers_wide::{Division, multiply_divide};
use std::array::from_fn;

// A total without its sign.
fn size(x: i64) -> u64
    ensures { result ≡ nat_abs x }
{
    x.unsigned_abs()
}

fn sizes(t: [i64; 5]) -> [u64; 5]
    ensures { result ≡ five (size_at t) }
{
    t.map(size)
}

// w * a / c with its remainder; of w = 0 whatever c is.
fn quotient(w: u64, a: u64, c: u64) -> Division
    requires { Divisible w a c }
    ensures { result ≡ record { quotient = w * a / c; remainder = w * a % c } }
{
    if w == 0 {
        Division {
            quotient: 0,
            remainder: 0,
        }
    } else {
        multiply_divide(w, a, c)
    }
}

// Each schedule's total times the group's adjusted totals over the group's totals, rounded down, and what is left.
fn divisions(w: [u64; 5], a: [u64; 5], c: [u64; 5]) -> [Division; 5]
    requires { Divisibles w a c }
    ensures { result ≡ five (division_at w a c) }
{
    from_fn(|s| quotient(w[s], a[s], c[s]))
}

fn quotients(d: [Division; 5]) -> [u64; 5]
    ensures { result ≡ map (λ x. x.quotient) d }
{
    d.map(|x| x.quotient)
}

// 1 where a division left a remainder: a number, since `units` counts those of the schedules before one by their sum.
fn rest(d: Division) -> u64
    ensures { result ≡ bit (ltb 0 d.remainder) }
{
    u64::from(0 < d.remainder)
}

fn rests(d: [Division; 5]) -> [u64; 5]
    ensures { result ≡ map (λ x. bit (ltb 0 x.remainder)) d }
{
    d.map(rest)
}

// The unit that a schedule gets: where its division left a remainder, and fewer of its group's before it have one than units are left over.
fn unit(rest: u64, earlier: u64, amount: u64, given: u64) -> u64
    ensures { result ≡ cond (eqb rest 0) 0 (bit (ltb earlier (amount - given))) }
{
    u64::from(rest != 0 && earlier < amount.saturating_sub(given))
}

// The units of all schedules.
fn units(l: [u32; 5], a: [u64; 5], q: [u64; 5], rests: [u64; 5]) -> [u64; 5]
    requires { (Small q) × (Small rests) }
    ensures { result ≡ five (unit_at l a q rests) }
{
    let given = group_sums(l, q);
    let earlier = sums_before(l, rests);
    from_fn(|s| unit(rests[s], earlier[s], a[s], given[s]))
}

// The size and the unit of schedule s, with the sign of its total.
fn share(t: [i64; 5], q: [u64; 5], u: [u64; 5], s: usize) -> i64
    requires { (Small q) × (Small u) × (s < 5) }
    ensures { result ≡ share_at t q u s }
{
    let size = (q[s] + u[s]) as i64;
    if t[s] < 0 { -size } else { size }
}

fn signed_shares(t: [i64; 5], q: [u64; 5], u: [u64; 5]) -> [i64; 5]
    requires { (Small q) × (Small u) }
    ensures { result ≡ five (share_at t q u) }
{
    from_fn(|s| share(t, q, u, s))
}

// The five shares, from the totals t and the adjusted totals a.
pub fn shares_of(t: [i64; 5], a: [i64; 5]) -> [i64; 5]
    requires { Adjusts t a }
    ensures { result ≡ five (share_of t) }
{
    let l = links(signs(t));
    let w = sizes(t);
    let amounts = group_sums(l, sizes(a));
    let d = divisions(w, amounts, group_sums(l, w));
    let q = quotients(d);
    let u = units(l, amounts, q, rests(d));
    signed_shares(t, q, u)
}
