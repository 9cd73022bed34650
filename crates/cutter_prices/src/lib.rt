// What the cutter writes of a step: its price and its missing-price flag in each schedule (document 01, "Steps and prices"), read from the
// lent line. The flagged steps of a schedule are a run at the end, so the flags are counted, and a schedule's word is made of the count.

#![tactic(auto)]

ghost use Rattle.std.specs.Prelude.{◌≡◌, ◌≤◌, ◌<◌};
ghost use Rattle.rules.specs.Fold.{five, at};
ghost use Rattle.rules.specs.Steps.{source};
ghost use Rattle.cutter_cursors.specs.Sweep.{Line as Accepted, Standing, SweepAt};
ghost use Rattle.cutter_prices.specs.Step.{slot_of, slots_of, step_price, step_rows, prices_put, MissingMost, missing_with, run_word};

use bytes_le::word_at;
use cutter_cursors::cursors::Sweep;
use layout::bids::{before_price, bid_break, bid_count};
use layout::header::Line;
use std::array::from_fn;

// A step's uncapped price in one schedule, and its flag: 1 where no break of the bid is at least the step's end. It is a number as in the
// view's struct in C.
#[derive(Clone, Copy)]
pub struct StepPrice {
    pub price: u32,
    pub flag: u32,
}

// The same in the five schedules.
#[derive(Clone, Copy)]
pub struct StepRows {
    pub price: [u32; 5],
    pub flag: [u32; 5],
}

// Where each schedule's prices stand: that of bid step `at`, counted from 1, is `at` words after this byte.
#[derive(Clone, Copy)]
pub struct Slots {
    pub byte: [usize; 5],
}

// How many steps are flagged in each schedule.
#[derive(Clone, Copy)]
pub struct Missing {
    pub count: [usize; 5],
}

// The schedule whose bid gives schedule s its last price (document 02, F-6). The loop maintains that the bids after r, up to s, were pulled.
fn source_of(line: &Line, s: usize) -> usize
    requires { Accepted line.now × (s < 5) }
    ensures { result ≡ source line.now s }
{
    let mut r = s;
    while bid_count(line, r) == 0 {
        r -= 1;
    }
    r
}

// The byte of the word before the prices of schedule s: before those of its own bid or, where that was pulled, before the price that it
// takes over.
fn slot_of(line: &Line, s: usize) -> usize
    requires { Accepted line.now × (s < 5) }
    ensures { result ≡ slot_of line.now s }
{
    if bid_count(line, s) != 0 {
        before_price(s, 0)
    } else {
        let r = source_of(line, s);
        before_price(r, bid_count(line, r) - 1)
    }
}

// Those of the five schedules.
pub fn price_slots(line: &Line) -> Slots
    requires { Accepted line.now }
    ensures { result ≡ slots_of line.now }
{
    Slots {
        byte: from_fn(|s| slot_of(line, s)),
    }
}

// The price and the flag of the step that ends at u, in schedule s, whose prices are counted from the byte `slot` and whose cursor stands at
// bid step `at`, counted from 1.
fn step_price(line: &Line, s: usize, slot: usize, at: usize, u: u32) -> StepPrice
    requires { Standing line.now s at u × (slot ≡ slot_of line.now s) }
    ensures { result ≡ step_price line.now s u }
{
    StepPrice {
        price: word_at(line, slot + 4 * at),
        flag: u32::from(bid_break(line, s, at - 1) < u),
    }
}

// Those of the five schedules.
fn step_prices(line: &Line, slots: Slots, places: Sweep, u: u32) -> [StepPrice; 5]
    requires { SweepAt line.now places u × (slots ≡ slots_of line.now) }
    ensures { result ≡ five (λ s. step_price line.now s u) }
{
    from_fn(|s| step_price(line, s, slots.byte[s], places.at[s], u))
}

// The same by rows.
pub fn step_rows(line: &Line, slots: Slots, places: Sweep, u: u32) -> StepRows
    requires { SweepAt line.now places u × (slots ≡ slots_of line.now) }
    ensures { result ≡ step_rows line.now u }
{
    let steps = step_prices(line, slots, places, u);
    StepRows {
        price: steps.map(|step| step.price),
        flag: steps.map(|step| step.flag),
    }
}

// Writes the prices of step n, which ends at u, into the five rows, and answers how many steps are flagged so far in each schedule. The loop
// maintains that those of the schedules before s are written.
pub fn put_step(
    line: &Line,
    prices: &mut [u32; 280],
    slots: Slots,
    places: Sweep,
    u: u32,
    n: usize,
    missing: Missing,
) -> Missing
    requires { SweepAt line.now places u × (slots ≡ slots_of line.now) × (n < 56) × MissingMost missing n }
    ensures value { result ≡ missing_with line.now u missing }
    ensures prices_after { prices.new ≡ prices_put line.now prices.old u n }
{
    let steps = step_prices(line, slots, places, u);
    for s in 0..5 {
        prices[56 * s + n] = steps[s].price;
    }
    Missing {
        count: from_fn(|s| missing.count[s] + steps[s].flag as usize),
    }
}

// The word of flags of n steps of which the last m are flagged.
fn flag_word(n: usize, m: usize) -> u64
    requires { (n ≤ 56) × (m ≤ n) }
    ensures { result ≡ run_word n m }
{
    (1u64 << n) - (1u64 << (n - m))
}

// The five words.
pub fn flag_words(n: usize, m: Missing) -> [u64; 5]
    requires { (n ≤ 56) × MissingMost m n }
    ensures { result ≡ five (λ s. run_word n (at m.count s)) }
{
    from_fn(|s| flag_word(n, m.count[s]))
}
