// Whether one step's matches agree with its C, as demand 3 asks (document 01, "Matching"): m are the ten matches, c is C by schedule. What
// the tests require is what the certificate says, so each is proved to answer true. Each test returns by itself: where they are joined by
// `&&`, the search on a wrong one ends at a limit, without an answer.

#![tactic(auto)]

ghost use Rattle.std.specs.Prelude.{◌≡◌, true, ◌<◌, ◌≤◌, ◌^◌, length, sum};
ghost use Rattle.step_balance.specs.Balance.{FallsMatched, RisesBound, Balanced};

use step_changes::rises_falls::{falls, rises};

// The sum of some words.
fn sum_of(words: &[u32]) -> u64
    requires { length words.now ≤ 10 }
    ensures total { result ≡ sum words.now }
    ensures below { result < 2 ^ 36 }
{
    words.iter().map(|&word| u64::from(word)).sum()
}

// Whether for every s the sum of m(r, s) over all r below s is D(s).
#[tactic(auto, unfolding(rules::specs::Matching::fall, rules::specs::Matching::earlier, rules::specs::Fold::before))]
pub fn falls_agree(c: [u32; 5], m: [u32; 10]) -> bool
    requires { FallsMatched c m }
    ensures { result ≡ true }
{
    let d = falls(c);
    if sum_of(&m[..1]) != u64::from(d[1]) {
        return false;
    }
    if sum_of(&m[1..3]) != u64::from(d[2]) {
        return false;
    }
    if sum_of(&m[3..6]) != u64::from(d[3]) {
        return false;
    }
    if sum_of(&m[6..]) != u64::from(d[4]) {
        return false;
    }
    true
}

// Whether for every r the sum of m(r, s) over all s above r is at most U(r).
#[tactic(auto, unfolding(rules::specs::Matching::rise, rules::specs::Matching::earlier, rules::specs::Fold::before))]
pub fn rises_agree(c: [u32; 5], m: [u32; 10]) -> bool
    requires { RisesBound c m }
    ensures { result ≡ true }
{
    let u = rises(c);
    if u64::from(u[0]) < sum_of(&[m[0], m[1], m[3], m[6]]) {
        return false;
    }
    if u64::from(u[1]) < sum_of(&[m[2], m[4], m[7]]) {
        return false;
    }
    if u64::from(u[2]) < sum_of(&[m[5], m[8]]) {
        return false;
    }
    if u[3] < m[9] {
        return false;
    }
    true
}

// Whether for every s the sum of U(1) to U(s), less all matches made in schedules up to s, is C(s), said as a sum.
#[tactic(auto, using(crate::proofs::Sums::sum_ten), unfolding(rules::specs::Matching::rise, rules::specs::Matching::earlier, rules::specs::Fold::before))]
pub fn balance_agrees(c: [u32; 5], m: [u32; 10]) -> bool
    requires { Balanced c m }
    ensures { result ≡ true }
{
    let u = rises(c);
    if sum_of(&u[..2]) != u64::from(c[1]) + sum_of(&m[..1]) {
        return false;
    }
    if sum_of(&u[..3]) != u64::from(c[2]) + sum_of(&m[..3]) {
        return false;
    }
    if sum_of(&u[..4]) != u64::from(c[3]) + sum_of(&m[..6]) {
        return false;
    }
    if sum_of(&u) != u64::from(c[4]) + sum_of(&m) {
        return false;
    }
    true
}
