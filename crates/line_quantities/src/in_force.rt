// A line's operating rows in force (document 02, F-5).
ghost use Rattle.std.specs.Prelude.{◌≡◌, ℕ, ◌+◌, ◌*◌, ◌≤◌, ◌<◌, length, get_or, None};
ghost use Rattle.rules.specs.Fold.{five};
ghost use Rattle.rules.specs.Layout.{record_entry, file_length, line_at};
ghost use Rattle.rules.specs.InForce.{is_above, row_at, table_with, table_in_force};
ghost use Rattle.line_quantities.specs.Highest.{number, place_with, highest_places};

use crate::rows::{operating_row, operating_table};
use layout::header::Line;
use layout::records::Records;
use std::array::from_fn;

// Whether the order number of record i is above that of the record in force before it, where there is one.
#[tactic(auto, unfolding(rules::specs::InForce::is_above))]
fn is_above(records: &Records, i: usize, before: Option<usize>) -> bool
    requires { (i < records.now.count) × (number before ≤ i) }
    ensures { result ≡ is_above records.now.bytes.now records.now.from i (number before) }
{
    match before {
        None => true,
        Some(h) => records.order(h) < records.order(i),
    }
}

// Of one schedule, which counts from 1 here: the record in force, with record i of the line.
#[tactic(auto, unfolding(crate::specs::Highest::place_with))]
fn place_with(records: &Records, i: usize, schedule: u32, before: Option<usize>) -> Option<usize>
    requires { (i < records.now.count) × (number before ≤ i) }
    ensures { result ≡ place_with records.now.bytes.now records.now.from i schedule before }
{
    if records.schedule(i) != schedule {
        return before;
    }
    if is_above(records, i, before) {
        Some(i)
    } else {
        before
    }
}

// The same of the five schedules.
fn places_with(records: &Records, i: usize, places: [Option<usize>; 5]) -> [Option<usize>; 5]
    requires { (i < records.now.count) × ((s : ℕ) → s < 5 → number (get_or places s None) ≤ i) }
    ensures { result ≡ five (λ s. place_with records.now.bytes.now records.now.from i (s + 1) (get_or places s None)) }
{
    from_fn(|s| place_with(records, i, s as u32 + 1, places[s]))
}

// The records in force for line k, by schedule.
fn places_for(records: &Records, k: usize) -> [Option<usize>; 5]
    ensures { result ≡ highest_places records.now.bytes.now records.now.from k records.now.count }
{
    let mut places = [None; 5];
    for i in 0..records.count {
        if records.line(i) as usize == k {
            // By way of `after`: the check does not cover a call whose array is put in `places` itself.
            let after = places_with(records, i, places);
            places = after;
        }
    }
    places
}

// The quantities of record i.
fn record_row(records: &Records, i: usize) -> [u32; 5]
    requires { i < records.now.count }
    ensures { result ≡ five (record_entry records.now.bytes.now records.now.from i) }
{
    from_fn(|j| records.entry(i, j))
}

// The row of the record in force, or the line's own.
#[tactic(auto, unfolding(rules::specs::InForce::row_at))]
fn row_at(records: &Records, line: &Line, s: usize, place: Option<usize>) -> [u32; 5]
    requires { (s < 5) × (number place ≤ records.now.count) }
    ensures { result ≡ row_at records.now.bytes.now records.now.from line.now s (number place) }
{
    match place {
        None => operating_row(line, s),
        Some(i) => record_row(records, i),
    }
}

// The rows in force of line k, whose bytes are lent, by the records.
fn table_with(records: &Records, k: usize, line: &Line) -> [[u32; 5]; 5]
    ensures { result ≡ table_with records.now.bytes.now records.now.from records.now.count k line.now }
{
    if records.count == 0 {
        return operating_table(line);
    }
    let places = places_for(records, k);
    // Written out: the proof of array::from_fn did not close where each place is an array.
    [
        row_at(records, line, 0, places[0]),
        row_at(records, line, 1, places[1]),
        row_at(records, line, 2, places[2]),
        row_at(records, line, 3, places[3]),
        row_at(records, line, 4, places[4]),
    ]
}

// The same by `count` records from byte `from` on.
pub fn table_in_force(b: &[u8], from: usize, count: usize, k: usize, line: &Line) -> [[u32; 5]; 5]
    requires { from + 32 * count ≤ length b.now }
    ensures { result ≡ table_with b.now from count k line.now }
{
    table_with(
        &Records {
            bytes: b,
            from,
            count,
        },
        k,
        line,
    )
}

// The same by a day's records.
pub fn day_table(day: &[u8], k: usize, line: &Line) -> [[u32; 5]; 5]
    requires { (64 ≤ length day.now) × (file_length day.now ≤ length day.now) × (line.now ≡ line_at day.now k) }
    ensures { result ≡ table_in_force day.now k }
{
    table_with(&Records::of(day), k, line)
}
