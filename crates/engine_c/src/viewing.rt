// The step view for other languages.
ghost use Rattle.std.specs.Prelude.{◌≡◌};
ghost use Rattle.rules.specs.Viewing.{view_answer};

use rules::View;
use view::view;

// The step view (document 01, "Totals and book"), for any bytes and any two numbers. Every field of the answer is fixed, for refused input
// too, and it has no other bytes.
#[unsafe(no_mangle)]
pub extern "C" fn mewikofu_view(day: &[u8], line: usize, step: usize) -> View
    ensures { result ≡ view_answer day.now line step }
{
    view(day, line, step)
}
