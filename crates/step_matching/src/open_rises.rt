// The ledger of open rises, newest first (document 01, "Matching"): a schedule takes from it what falls and leaves what rose.
ghost use Rattle.std.specs.Prelude.{◌≡◌, replicate};
ghost use Rattle.step_matching.specs.Ledgers.{entered};

use std::array::from_fn;

// What is left of the rises of the schedules before, the latest first. At most four are open before a schedule.
#[derive(Clone, Copy)]
pub struct Ledger {
    pub rises: [u32; 4],
}

// What a schedule takes of each open rise, and the ledger that it leaves.
#[derive(Clone, Copy)]
pub struct Matched {
    pub matches: [u32; 4],
    pub next: Ledger,
}

impl Ledger {
    // before the first schedule
    pub fn empty() -> Self
        ensures { result.rises ≡ replicate 4 0 }
    {
        Ledger { rises: [0; 4] }
    }

    // A schedule with C = `now`, where that of the schedule before is `before`, takes its fall from the open rises, the
    // latest first, and its own rise is open after it.
    pub fn enter(self, before: u32, now: u32) -> Matched
        ensures { result ≡ entered self before now }
    {
        let mut fall = before.saturating_sub(now);
        let matches = self.rises.map(|open| {
            let taken = fall.min(open);
            fall -= taken;
            taken
        });
        Matched {
            matches,
            next: Ledger {
                rises: from_fn(|r| {
                    if r == 0 {
                        now.saturating_sub(before)
                    } else {
                        self.rises[r - 1] - matches[r - 1]
                    }
                }),
            },
        }
    }
}
