// Which of a line's steps can be paid something: those within a window that its totals give.
ghost use Rattle.std.specs.Prelude.{◌≡◌};
ghost use Rattle.day_pools.specs.Window.{window_of, Going, is_covered};

use cutter::positions::FAR;
use step_inputs::inputs::LineTotals;
use step_pool::skipped_steps::{least, most};

// A step that ends at or below `from` adds nothing to pool or money, nor does one that begins at or above `to`.
#[derive(Clone, Copy)]
pub struct Window {
    pub from: u32,
    pub to: u32,
}

// Up to the hedge no step is paid, and where the line is accredited in no schedule none at all. Within every pricing total and past every
// operating total C is 0.
pub fn window_of(t: LineTotals) -> Window
    ensures { result ≡ window_of t }
{
    let accredited = t.accredited;
    let pricing = t.pricing;
    let operating = t.operating;
    let from = t.hedge.max(least(pricing));
    if most(accredited) == 0 {
        return Window { from, to: 0 };
    }
    Window {
        from,
        to: most(operating),
    }
}

// Whether there is a next step, the gap to whose end is `gap`, and it begins below the window's end.
pub fn goes_on(gap: u32, lower: u32, to: u32) -> bool
    ensures { Going gap lower to result }
{
    if FAR <= gap {
        return false;
    }
    lower < to
}

// Whether no operating total of a line is above a pricing total: then C is 0 on all its steps.
pub fn covered(t: LineTotals) -> bool
    ensures { result ≡ is_covered t }
{
    let pricing = t.pricing;
    let operating = t.operating;
    most(operating) <= least(pricing)
}
