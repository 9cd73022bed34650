// What each line of an accepted day is paid, and the day's totals, worked out without a book (document 01, "Totals and book").

#![tactic(auto)]

ghost use Rattle.std.specs.Prelude.{◌≡◌, ◌+◌, ◌*◌, ◌≤◌, ◌<◌, set};
ghost use Rattle.std.proofs.lemmas.List.Edits.{sets};
ghost use Rattle.rules.specs.Fold.{five, list_to};
ghost use Rattle.rules.specs.Layout.{line_count, clawback};
ghost use Rattle.rules.specs.Days.{settled_day};
ghost use Rattle.rules.specs.Totals.{total, adjusted_total};
ghost use Rattle.laws.specs.Accepted.{AcceptedDay};
ghost use Rattle.day_pools.specs.Sums.{money_to};
ghost use Rattle.day_paid.specs.Sums.{line_money};
ghost use Rattle.step_inputs.specs.Inputs.{market_of};
ghost use Rattle.day_paid.specs.Lines.{pool_in, PoolsAddable, pools_with, pools_to, KeptOf, KeptAll};
ghost use Rattle.day_paid.specs.Paid.{payments_of, payments_to};

use cutter::positions::{Position, no_position};
use day_pools::{LinePool, empty_pool, line_initial, line_pool, line_taken};
use day_totals::adjusted;
use layout::fields::side;
use layout::header::{line_count, line_of};
use step_finals::finals::money_add;
use step_inputs::inputs::{Market, market_of};
use step_payments::amounts::Money;
use step_payments::payments::signed_money;
use step_pool::adding::pool_add;
use step_pool::pool_amounts::SidePool;

// A day's totals t and adjusted totals a.
#[derive(Clone, Copy)]
pub struct DayTotals {
    pub t: [i64; 5],
    pub a: [i64; 5],
}

// What a place holds before it is paid: no payment is as large. (Not 0: a memset of 2,560 bytes goes byte by byte.)
pub const UNPAID: i64 = 1000000000000000000;

// The pool of a line's side.
fn pool_of(side: u32, injection: SidePool, withdrawal: SidePool) -> SidePool
    ensures { result ≡ pool_in side injection withdrawal }
{
    if side == 0 { injection } else { withdrawal }
}

// Five payments put from place `at` on.
fn put_payments(paid: &mut [i64; 320], at: usize, v: [i64; 5])
    requires { at + 5 ≤ 320 }
    ensures { paid.new ≡ sets paid.old at v }
{
    paid[at] = v[0];
    paid[at + 1] = v[1];
    paid[at + 2] = v[2];
    paid[at + 3] = v[3];
    paid[at + 4] = v[4];
}

// The pools of the two sides.
#[derive(Clone, Copy)]
pub struct Pools {
    pub injection: SidePool,
    pub withdrawal: SidePool,
}

// What the first pass keeps of a line for the second: what `Keeps` says of the first two, and what the line is paid. (In this order a copy by
// 16 bytes reads what was written by 16.)
#[derive(Clone, Copy)]
pub struct KeptLine {
    pub from: Position,
    pub taking: u64,
    pub plus: [u64; 5],
}

// What the first pass over a day answers: the pools of the sides, and at place k what is kept of line k.
#[derive(Clone, Copy)]
pub struct KeptDay {
    pub pools: Pools,
    pub lines: [KeptLine; 64],
}

// The pools with that of a line of this side more.
fn pools_with(p: Pools, side: u32, line: SidePool) -> Pools
    requires { PoolsAddable p side line }
    ensures { result ≡ pools_with p side line }
{
    if side == 0 {
        Pools {
            injection: pool_add(p.injection, line),
            withdrawal: p.withdrawal,
        }
    } else {
        Pools {
            injection: p.injection,
            withdrawal: pool_add(p.withdrawal, line),
        }
    }
}

// What the first pass keeps of a line.
fn kept_of(x: LinePool) -> KeptLine
    ensures { result ≡ record { plus = x.pool.plus; from = x.from; taking = x.taking } }
{
    // An array in a field is put into a literal by way of a variable: the borrow checker covers nothing else.
    let plus = x.pool.plus;
    KeptLine {
        plus,
        from: x.from,
        taking: x.taking,
    }
}

// Before the first pass.
fn nothing_kept() -> KeptLine
    ensures { result.taking ≡ 0 }
{
    KeptLine {
        plus: [0; 5],
        from: no_position(),
        taking: 0,
    }
}

// The first pass over the lines, where clawback is on. Line k's step count is put at place k. The loop maintains that the first k lines are in
// the pools, and their counts and what is kept of them at their places.
fn keep_lines(day: &[u8], m: Market, counts: &mut [u32; 64]) -> KeptDay
    requires { AcceptedDay day.now × (m ≡ market_of day.now) }
    ensures kept_all { KeptAll day.now result }
    ensures counts_after { counts.new ≡ sets counts.old 0 (list_to (line_count day.now) (settled_day day.now).count) }
{
    let mut pools = Pools {
        injection: empty_pool(),
        withdrawal: empty_pool(),
    };
    let mut lines = [nothing_kept(); 64];
    for k in 0..line_count(day) {
        let x = line_pool(day, k, m);
        pools = pools_with(pools, side(line_of(day, k)), x.pool);
        lines[k] = kept_of(x);
        counts[k] = x.count;
    }
    KeptDay { pools, lines }
}

// What line k is paid, from the pools and what the first pass kept of it. A line of which no step takes something back is not swept again.
fn kept_money(day: &[u8], k: usize, m: Market, pools: Pools, kept: KeptLine) -> Money
    requires { AcceptedDay day.now × (k < line_count day.now) × (m ≡ market_of day.now) × (clawback day.now ≡ 1)
        × (pools ≡ pools_to (settled_day day.now) (line_count day.now)) × KeptOf day.now k kept }
    ensures { result ≡ line_money (settled_day day.now) k }
{
    let plus = kept.plus;
    if kept.taking == 0 {
        Money {
            plus,
            minus: [0; 5],
        }
    } else {
        let pool = pool_of(side(line_of(day, k)), pools.injection, pools.withdrawal);
        line_taken(day, k, m, pool, plus, kept.from, kept.taking)
    }
}

// The second pass: what each line is paid put from place 5 k on, and their money in all. The loop maintains that the first k are paid, and
// that `total` is their money.
fn pay_kept(day: &[u8], m: Market, x: KeptDay, paid: &mut [i64; 320]) -> Money
    requires { AcceptedDay day.now × (m ≡ market_of day.now) × (clawback day.now ≡ 1) × KeptAll day.now x }
    ensures value { result ≡ money_to (line_count day.now) (line_money (settled_day day.now)) }
    ensures paid_after { paid.new ≡ sets paid.old 0 (payments_to (settled_day day.now) (line_count day.now)) }
{
    let mut total = Money {
        plus: [0; 5],
        minus: [0; 5],
    };
    for k in 0..line_count(day) {
        let money = kept_money(day, k, m, x.pools, x.lines[k]);
        put_payments(paid, 5 * k, signed_money(money));
        total = money_add(total, money);
    }
    total
}

// The lines of a day where clawback is on, by two passes.
fn pay_final(day: &[u8], m: Market, paid: &mut [i64; 320], counts: &mut [u32; 64]) -> Money
    requires { AcceptedDay day.now × (m ≡ market_of day.now) × (clawback day.now ≡ 1) }
    ensures value { result ≡ money_to (line_count day.now) (line_money (settled_day day.now)) }
    ensures paid_after { paid.new ≡ sets paid.old 0 (payments_to (settled_day day.now) (line_count day.now)) }
    ensures counts_after { counts.new ≡ sets counts.old 0 (list_to (line_count day.now) (settled_day day.now).count) }
{
    let kept = keep_lines(day, m, counts);
    pay_kept(day, m, kept, paid)
}

// What line k is paid where clawback is off: its payments from place 5 k on, its step count at place k.
fn pay_line(day: &[u8], k: usize, m: Market, paid: &mut [i64; 320], counts: &mut [u32; 64]) -> Money
    requires { AcceptedDay day.now × (m ≡ market_of day.now) × (clawback day.now ≡ 0) × (k < line_count day.now) }
    ensures value { result ≡ line_money (settled_day day.now) k }
    ensures paid_after { paid.new ≡ sets paid.old (5 * k) (payments_of (settled_day day.now) k) }
    ensures counts_after { counts.new ≡ set counts.old k ((settled_day day.now).count k) }
{
    let x = line_initial(day, k, m);
    put_payments(paid, 5 * k, signed_money(x.money));
    counts[k] = x.count;
    x.money
}

// The same for every line, and their money in all. The loop maintains that the first k are paid, and that `total` is their money.
fn pay_initial(day: &[u8], m: Market, paid: &mut [i64; 320], counts: &mut [u32; 64]) -> Money
    requires { AcceptedDay day.now × (m ≡ market_of day.now) × (clawback day.now ≡ 0) }
    ensures value { result ≡ money_to (line_count day.now) (line_money (settled_day day.now)) }
    ensures paid_after { paid.new ≡ sets paid.old 0 (payments_to (settled_day day.now) (line_count day.now)) }
    ensures counts_after { counts.new ≡ sets counts.old 0 (list_to (line_count day.now) (settled_day day.now).count) }
{
    let mut total = Money {
        plus: [0; 5],
        minus: [0; 5],
    };
    for k in 0..line_count(day) {
        let money = pay_line(day, k, m, paid, counts);
        total = money_add(total, money);
    }
    total
}

// The lines of a day.
fn pay_lines(day: &[u8], m: Market, paid: &mut [i64; 320], counts: &mut [u32; 64]) -> Money
    requires { AcceptedDay day.now × (m ≡ market_of day.now) }
    ensures value { result ≡ money_to (line_count day.now) (line_money (settled_day day.now)) }
    ensures paid_after { paid.new ≡ sets paid.old 0 (payments_to (settled_day day.now) (line_count day.now)) }
    ensures counts_after { counts.new ≡ sets counts.old 0 (list_to (line_count day.now) (settled_day day.now).count) }
{
    if m.clawback == 0 {
        pay_initial(day, m, paid, counts)
    } else {
        pay_final(day, m, paid, counts)
    }
}

// What an accepted day pays: its totals answered, line k's payment in schedule s (0 to 4) at place 5 k + s, its step count at place k.
// Places past the last line stay as they were.
pub fn day_paid(day: &[u8], paid: &mut [i64; 320], counts: &mut [u32; 64]) -> DayTotals
    requires { AcceptedDay day.now }
    ensures t_value { (result.t ≡ five (total (settled_day day.now))) × (result.a ≡ five (adjusted_total (settled_day day.now))) }
    ensures paid_after { paid.new ≡ sets paid.old 0 (payments_to (settled_day day.now) (line_count day.now)) }
    ensures counts_after { counts.new ≡ sets counts.old 0 (list_to (line_count day.now) (settled_day day.now).count) }
{
    let m = market_of(day);
    let money = pay_lines(day, m, paid, counts);
    let t = signed_money(money);
    let a = adjusted(t);
    DayTotals { t, a }
}

// The totals of an accepted day.
pub fn settled_totals(day: &[u8]) -> DayTotals
    requires { AcceptedDay day.now }
    ensures { (result.t ≡ five (total (settled_day day.now))) × (result.a ≡ five (adjusted_total (settled_day day.now))) }
{
    let mut paid = [UNPAID; 320];
    let mut counts = [0; 64];
    day_paid(day, &mut paid, &mut counts)
}
