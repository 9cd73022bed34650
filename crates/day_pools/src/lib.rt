// Pools of a line's steps and of a side's lines, and what a line is paid.

#![tactic(auto)]

mod marks;
mod positions;
pub mod window;

ghost use Rattle.std.specs.Prelude.{◌≡◌, true, cond, ℕ, ◌%◌, ◌<◌, ◌^◌, eqb};
ghost use Rattle.rules.specs.Fold.{five};
ghost use Rattle.rules.specs.Layout.{line_count, line_at, side, clawback};
ghost use Rattle.rules.specs.Steps.{step_count};
ghost use Rattle.rules.specs.Days.{step_of, settled_day};
ghost use Rattle.laws.specs.Accepted.{AcceptedDay};
ghost use Rattle.cutter_cursors.specs.Sweep.{Line, far};
ghost use Rattle.cutter_prices.specs.Step.{slots_of};
ghost use Rattle.cutter.specs.Positions.{SweptAt};
ghost use Rattle.step_inputs.specs.Inputs.{market_of};
ghost use Rattle.step_inputs.specs.Ready.{PastHedge};
ghost use Rattle.step_payments.specs.Sizes.{Sized};
ghost use Rattle.step_pool.specs.Amounts.{no_pool, sum_in, taken_with, taken_on, SharedOn};
ghost use Rattle.day_pools.specs.Window.{is_covered};
ghost use Rattle.day_pools.specs.Sums.{money_to};
ghost use Rattle.day_pools.specs.Sides.{line_pool, side_part, side_pool};
ghost use Rattle.day_pools.specs.Lines.{step_money, PoolFor};
ghost use Rattle.day_pools.specs.Passes.{Entered, Keeps, LinePooled};

use crate::marks::with_mark;
use crate::positions::next;
use crate::window::{covered, goes_on, window_of};
use cutter::positions::{Position, first_position, skip_to};
use cutter_prices::{Slots, price_slots};
use layout::fields::side;
use layout::header::{Line, line_count, line_of};
use step_finals::final_shares::{Shares, shares_of};
use step_finals::finals::{initial_with, taken_with};
use step_inputs::day_line::DayLine;
use step_inputs::inputs::Market;
use step_payments::amounts::Money;
use step_pool::adding::{pool_add, pool_with};
use step_pool::pool_amounts::SidePool;

// What the first pass over a line answers: its steps' count and pool, and what it keeps for the second (`Keeps`): where the sweep enters
// the window, and a word of which bit i is set where step i from there on takes something back.
#[derive(Clone, Copy)]
pub struct LinePool {
    pub from: Position,
    pub taking: u64,
    pub pool: SidePool,
    pub count: u32,
}

// What a line is paid in all, and how many steps it has.
#[derive(Clone, Copy)]
pub struct LinePaid {
    pub count: u32,
    pub money: Money,
}

pub fn empty_pool() -> SidePool
    ensures { result ≡ no_pool }
{
    SidePool {
        plus: [0; 5],
        minus: [0; 5],
        rises: [0; 5],
        falls: [0; 5],
        differs: [0; 5],
    }
}

// Where the sweep over the line enters the window: before the first step that ends above it.
fn entered(line: &DayLine<'_>) -> Position
    ensures { Entered line.now.day.now line.now.k result }
{
    let bytes = line.bytes;
    skip_to(bytes, first_position(bytes), window_of(line.totals).from)
}

// How many steps the line has, from where the sweep stands.
fn count_from(line: &Line, at: Position) -> u32
    requires { Line line.now × SweptAt line.now at }
    ensures { result ≡ step_count line.now }
{
    skip_to(line, at, u32::MAX).step as u32
}

// The pool of the line's steps, from where the sweep enters the window. The loop maintains that `pool` is that of the steps before step
// at.step, before which the sweep stands, and `taking` the word of the steps from `entry` on before it.
fn window_pool(line: &DayLine<'_>, entry: Position) -> LinePool
    requires { Entered line.now.day.now line.now.k entry }
    ensures { LinePooled line.now.day.now line.now.k result }
{
    let bytes = line.bytes;
    let slots = price_slots(bytes);
    let to = window_of(line.totals).to;
    let mut pool = empty_pool();
    let mut taking = 0u64;
    let mut at = entry;
    while goes_on(at.gap, at.lower, to) {
        let x = pool_with(pool, line.step_here(slots, at));
        pool = x.pool;
        taking = with_mark(taking, x.takes, at.step - entry.step);
        at = next(bytes, at);
    }
    LinePool {
        count: count_from(bytes, at),
        from: entry,
        taking,
        pool,
    }
}

// The first pass over a line where C is 0 on all its steps: they are only counted.
fn covered_pool(line: &DayLine<'_>) -> LinePool
    requires { is_covered line.now.totals ≡ true }
    ensures { LinePooled line.now.day.now line.now.k result }
{
    let bytes = line.bytes;
    let from = skip_to(bytes, first_position(bytes), u32::MAX);
    LinePool {
        count: from.step as u32,
        from,
        taking: 0,
        pool: empty_pool(),
    }
}

// The first pass over line k.
pub fn line_pool(day: &[u8], k: usize, m: Market) -> LinePool
    requires { (AcceptedDay day.now) × (k < line_count day.now) × (m ≡ market_of day.now) }
    ensures { LinePooled day.now k result }
{
    let line = DayLine::new(day, k, m);
    if covered(line.totals) {
        covered_pool(&line)
    } else {
        window_pool(&line, entered(&line))
    }
}

// What line k adds to the pool of a side.
fn side_part(day: &[u8], k: usize, m: Market, sd: u32) -> SidePool
    requires { (AcceptedDay day.now) × (k < line_count day.now) × (m ≡ market_of day.now) }
    ensures { result ≡ side_part (settled_day day.now) sd k }
{
    if side(line_of(day, k)) != sd {
        return empty_pool();
    }
    line_pool(day, k, m).pool
}

// The pool of a side. The loop maintains that `pool` is what the lines before k add to it.
pub fn side_pool(day: &[u8], m: Market, sd: u32) -> SidePool
    requires { (AcceptedDay day.now) × (m ≡ market_of day.now) }
    ensures { result ≡ side_pool (settled_day day.now) sd }
{
    let mut pool = empty_pool();
    for k in 0..line_count(day) {
        pool = pool_add(pool, side_part(day, k, m, sd));
    }
    pool
}

// The pool of a side, or none where clawback is off: no payment reads it then.
pub fn pool_for(day: &[u8], m: Market, sd: u32) -> SidePool
    requires { (AcceptedDay day.now) × (m ≡ market_of day.now) }
    ensures { PoolFor (settled_day day.now) sd result }
{
    if m.clawback == 0 {
        return empty_pool();
    }
    side_pool(day, m, sd)
}

// Money of which the part taken back has that of the step before which the sweep stands more, where the lowest bit of `word` is set.
fn taken_after(
    money: Money,
    word: u64,
    h: Shares,
    line: &DayLine<'_>,
    slots: Slots,
    at: Position,
) -> Money
    requires { PastHedge line.now.bytes.now at.step at.places at.lower at.gap × (at.gap < far) × (slots ≡ slots_of line.now.bytes.now)
        × Sized (step_of line.now.day.now line.now.k at.step)
        × SharedOn (step_of line.now.day.now line.now.k at.step) h.total h.base
        × ((s : ℕ) → sum_in money.minus (five (taken_on (step_of line.now.day.now line.now.k at.step) h.total h.base)) s < 2 ^ 64) }
    ensures { result ≡ cond (eqb (word % 2) 0) money (taken_with money (five (taken_on (step_of line.now.day.now line.now.k at.step) h.total h.base))) }
{
    if word % 2 == 0 {
        money
    } else {
        taken_with(money, line.step_here(slots, at), h)
    }
}

// What a line is paid where clawback is on, from the pool of its side and what the first pass kept; `plus` is what is paid of it. The loop
// maintains that the part of `money` taken back is that of the steps before step at.step, before which the sweep stands, and `word` the word
// of the steps from there on.
fn window_taken(
    line: &DayLine<'_>,
    p: SidePool,
    plus: [u64; 5],
    from: Position,
    taking: u64,
) -> Money
    requires { (clawback line.now.day.now ≡ 1) × (PoolFor (settled_day line.now.day.now) (side (line_at line.now.day.now line.now.k)) p)
        × (plus ≡ (line_pool (settled_day line.now.day.now) line.now.k).plus) × (Keeps line.now.day.now line.now.k from taking) }
    ensures { result ≡ money_to (step_count (line_at line.now.day.now line.now.k)) (step_money (settled_day line.now.day.now) line.now.k) }
{
    let bytes = line.bytes;
    let slots = price_slots(bytes);
    let h = shares_of(p);
    let mut money = Money {
        plus,
        minus: [0; 5],
    };
    let mut word = taking;
    let mut at = from;
    while word != 0 {
        money = taken_after(money, word, h, line, slots, at);
        at = next(bytes, at);
        word /= 2;
    }
    money
}

// What line k is paid where clawback is on.
pub fn line_taken(
    day: &[u8],
    k: usize,
    m: Market,
    p: SidePool,
    plus: [u64; 5],
    from: Position,
    taking: u64,
) -> Money
    requires { (AcceptedDay day.now) × (k < line_count day.now) × (m ≡ market_of day.now) × (clawback day.now ≡ 1)
        × (PoolFor (settled_day day.now) (side (line_at day.now k)) p) × (plus ≡ (line_pool (settled_day day.now) k).plus)
        × (Keeps day.now k from taking) }
    ensures { result ≡ money_to (step_count (line_at day.now k)) (step_money (settled_day day.now) k) }
{
    window_taken(&DayLine::new(day, k, m), p, plus, from, taking)
}

// What a line is paid where clawback is off, from where the sweep enters the window: its initial payments. The loop maintains that `money` is
// what the steps before step at.step are paid, before which the sweep stands.
fn window_initial(line: &DayLine<'_>, start: Position) -> LinePaid
    requires { (clawback line.now.day.now ≡ 0) × Entered line.now.day.now line.now.k start }
    ensures { (result.count ≡ step_count (line_at line.now.day.now line.now.k))
        × (result.money ≡ money_to (step_count (line_at line.now.day.now line.now.k)) (step_money (settled_day line.now.day.now) line.now.k)) }
{
    let bytes = line.bytes;
    let slots = price_slots(bytes);
    let to = window_of(line.totals).to;
    let mut money = Money {
        plus: [0; 5],
        minus: [0; 5],
    };
    let mut at = start;
    while goes_on(at.gap, at.lower, to) {
        money = initial_with(money, line.step_here(slots, at));
        at = next(bytes, at);
    }
    LinePaid {
        count: count_from(bytes, at),
        money,
    }
}

// What a line is paid where C is 0 on all its steps.
fn covered_initial(line: &DayLine<'_>) -> LinePaid
    requires { is_covered line.now.totals ≡ true }
    ensures { (result.count ≡ step_count (line_at line.now.day.now line.now.k))
        × (result.money ≡ money_to (step_count (line_at line.now.day.now line.now.k)) (step_money (settled_day line.now.day.now) line.now.k)) }
{
    let bytes = line.bytes;
    LinePaid {
        count: count_from(bytes, first_position(bytes)),
        money: Money {
            plus: [0; 5],
            minus: [0; 5],
        },
    }
}

// What line k is paid where clawback is off.
pub fn line_initial(day: &[u8], k: usize, m: Market) -> LinePaid
    requires { (AcceptedDay day.now) × (k < line_count day.now) × (m ≡ market_of day.now) × (clawback day.now ≡ 0) }
    ensures { (result.count ≡ step_count (line_at day.now k))
        × (result.money ≡ money_to (step_count (line_at day.now k)) (step_money (settled_day day.now) k)) }
{
    let line = DayLine::new(day, k, m);
    if covered(line.totals) {
        covered_initial(&line)
    } else {
        window_initial(&line, entered(&line))
    }
}
