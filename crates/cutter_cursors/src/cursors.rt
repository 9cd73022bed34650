// The cutter's five cursors (document 01, "Steps and prices"): one for each schedule's bid, at the first bid step whose break is at least
// the next step's upper end, or at the bid's last where there is none. That of a pulled bid (document 02, F-6) stays at the first slot,
// whose break is 0, so that it gives no end. The least of their breaks and of the hedge that is above the last end is the next end. Breaks
// are read from the lent line.
ghost use Rattle.std.specs.Prelude.{◌≡◌, suc, ◌+◌, ◌<◌, ◌≤◌};
ghost use Rattle.rules.specs.Layout.{quantity_most};
ghost use Rattle.cutter_cursors.specs.Sweep.{Standing, SweepAt, past, place_of, first_places, sweep_of, stop_of, gap_of, break_gap, next_gap};

use layout::bids::{bid_break, bid_count};
use layout::fields::hedge;
use layout::header::Line;
use std::array::from_fn;
use std::num::wrapping_sub_u32;

// Above every break. An `Option` in its place would be slower: the cursors are to move with no branch.
const PAST: u32 = u32::MAX;

// Where each schedule's cursor stands: a step of its bid, counted from 1.
#[derive(Clone, Copy)]
pub struct Sweep {
    pub at: [usize; 5],
}

// The break at which the cursor moves on; PAST at the bid's last step, and in a pulled bid.
#[inline(always)]
fn stop_of(line: &Line, s: usize, at: usize) -> u32
    requires { (s < 5) × (0 < at) × (at ≤ 11) }
    ensures { result ≡ stop_of line.now s at }
{
    if at < bid_count(line, s) {
        bid_break(line, s, at - 1)
    } else {
        PAST
    }
}

// Where the cursor of schedule s stands after the end u: at the next step if its break was u, but at no step past the last.
#[inline(always)]
fn moved(line: &Line, s: usize, at: usize, u: u32) -> usize
    requires { Standing line.now s at u × (u < past) }
    ensures { result ≡ place_of line.now s (suc u) }
{
    at + usize::from(stop_of(line, s, at) == u)
}

// Before the first end.
#[tactic(auto, unfolding(crate::specs::Sweep::first_places))]
pub fn start() -> Sweep
    ensures { result ≡ first_places }
{
    Sweep { at: [1; 5] }
}

// After the end u.
#[inline(always)]
pub fn passed(line: &Line, places: Sweep, u: u32) -> Sweep
    requires { SweepAt line.now places u × (u < past) }
    ensures { result ≡ sweep_of line.now (suc u) }
{
    Sweep {
        at: from_fn(|s| moved(line, s, places.at[s], u)),
    }
}

// How far x is above e, counted from 0; 2 ^ 31 or more where it is not above.
#[inline(always)]
fn gap(x: u32, e: u32) -> u32
    requires { (x ≤ quantity_most) × (e ≤ quantity_most) }
    ensures { result ≡ gap_of x e }
{
    wrapping_sub_u32(x, e + 1)
}

// The gap from e to the break at which the cursor of schedule s stands.
#[inline(always)]
fn break_gap(line: &Line, s: usize, at: usize, e: u32) -> u32
    requires { Standing line.now s at (suc e) × (e ≤ quantity_most) }
    ensures { result ≡ break_gap line.now e s }
{
    gap(bid_break(line, s, at - 1), e)
}

// The least gap from e, over the five cursors and the hedge: to the next end. At that end too the cursors stand where they are.
#[inline(always)]
pub fn next_gap(line: &Line, places: Sweep, e: u32) -> u32
    requires { SweepAt line.now places (suc e) × (e ≤ quantity_most) }
    ensures value { result ≡ next_gap line.now e }
    ensures sweep_at { SweepAt line.now places (e + 1 + result) }
{
    let gaps: [u32; 5] = from_fn(|s| break_gap(line, s, places.at[s], e));
    // in pairs: one after another, each would wait for the one before
    let [a, b, c, d, f] = gaps;
    a.min(b).min(c.min(d)).min(f.min(gap(hedge(line), e)))
}
