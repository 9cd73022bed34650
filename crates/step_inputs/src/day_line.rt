// Line k of an accepted day with what its steps share, and its steps, put together as `Step`s.
ghost use Rattle.std.specs.Prelude.{◌≡◌, ◌<◌};
ghost use Rattle.rules.specs.Layout.{line_count};
ghost use Rattle.rules.specs.Days.{step_of};
ghost use Rattle.laws.specs.Accepted.{AcceptedDay};
ghost use Rattle.cutter_cursors.specs.Sweep.{far};
ghost use Rattle.cutter_prices.specs.Step.{slots_of};
ghost use Rattle.step_inputs.specs.Inputs.{market_of, StepReady};
ghost use Rattle.step_inputs.specs.Ready.{LineReady, PastHedge};

use crate::inputs::{LineTotals, Market, step_at, step_here, totals_of};
use cutter::positions::Position;
use cutter_prices::Slots;
use layout::header::{Line, line_of};
use line_quantities::in_force::day_table;
use rules::{Cut, Step};

#[derive(Clone, Copy)]
pub struct DayLine<'a> {
    pub day: &'a [u8],
    pub k: usize,
    pub bytes: &'a Line,
    pub market: Market,
    pub totals: LineTotals,
    ghost ready: { LineReady day.now k bytes.now totals },
    ghost market_is: { market ≡ market_of day.now },
}

impl<'a> DayLine<'a> {
    pub fn new(day: &'a [u8], k: usize, market: Market) -> Self
        requires { AcceptedDay day.now × (k < line_count day.now) × (market ≡ market_of day.now) }
        ensures { (result.day.now ≡ day.now) × (result.k ≡ k) × (result.market ≡ market) }
    {
        let bytes = line_of(day, k);
        DayLine {
            day,
            k,
            bytes,
            market,
            totals: totals_of(bytes, day_table(day, k, bytes)),
        }
    }

    // Step j, from what the cutter answers for the line; `lower` is the end before.
    pub fn step_at(&self, cut: &Cut, lower: u32, j: usize) -> Step
        requires { StepReady self.now.day.now self.now.k self.now.market self.now.totals cut.now.ends cut.now.prices cut.now.flags lower j }
        ensures { result ≡ step_of self.now.day.now self.now.k j }
    {
        step_at(
            self.day,
            self.k,
            self.market,
            self.totals,
            &cut.ends,
            &cut.prices,
            cut.flags,
            lower,
            j,
        )
    }

    // The step before which the sweep over the line stands, where it ends past the hedge: it is paid in each schedule in which its line is
    // accredited.
    pub fn step_here(&self, slots: Slots, at: Position) -> Step
        requires { PastHedge self.now.bytes.now at.step at.places at.lower at.gap × (at.gap < far) × (slots ≡ slots_of self.now.bytes.now) }
        ensures { result ≡ step_of self.now.day.now self.now.k at.step }
    {
        let upper = at.lower + 1 + at.gap;
        step_here(
            self.day,
            self.k,
            self.bytes,
            self.market,
            self.totals,
            slots,
            at.places,
            at.lower,
            upper,
            at.step,
        )
    }
}
