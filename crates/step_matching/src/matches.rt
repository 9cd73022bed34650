// The match table of one step and its ten matches (document 01, "Matching").
ghost use Rattle.std.specs.Prelude.{◌≡◌};
ghost use Rattle.rules.specs.Fold.{five};
ghost use Rattle.rules.specs.Matching.{ten_matches};
ghost use Rattle.step_matching.specs.Ledgers.{match_row};

use crate::open_rises::{Ledger, Matched};
use std::array::from_fn;

// m(r, s) at row s and column r, from C. The loop maintains that the rows before s are in `table`, and that `open` has the rises that are open
// before schedule s.
pub fn match_table(c: [u32; 5]) -> [[u32; 5]; 5]
    ensures { result ≡ five (match_row c) }
{
    let mut table = [[0; 5]; 5];
    let mut open = Ledger::empty();
    let mut before = 0;
    for s in 0..5 {
        let Matched { matches, next } = open.enter(before, c[s]);
        table[s] = from_fn(|r| if r < s { matches[s - 1 - r] } else { 0 });
        open = next;
        before = c[s];
    }
    table
}

// m(1,2) m(1,3) m(2,3) m(1,4) .. m(4,5), from C. Written out, since the places show the order.
pub fn ten_matches(c: [u32; 5]) -> [u32; 10]
    ensures { result ≡ ten_matches c }
{
    let t = match_table(c);
    [
        t[1][0], t[2][0], t[2][1], t[3][0], t[3][1], t[3][2], t[4][0], t[4][1], t[4][2], t[4][3],
    ]
}
