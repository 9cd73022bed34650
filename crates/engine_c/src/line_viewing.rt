// The views of all steps of a line for other languages.
ghost use Rattle.std.specs.Prelude.{◌≡◌, length};
ghost use Rattle.std.proofs.lemmas.List.Edits.{sets};
ghost use Rattle.rules.specs.Refusals.{view_fault};
ghost use Rattle.view.specs.LineViews.{line_views};

use rules::View;
use view::line_views::line_views;

// The views of a line's steps by one call, for any bytes and any number. Answers the number; place j of `views` is then what the step view
// answers for step j, `count` is how many steps there are, and the places beyond are as they were. Refused, all are, and `count` is 0.
#[tactic(auto, using(view::specs::LineViews::views_refused))]
#[unsafe(no_mangle)]
pub extern "C" fn mewikofu_line_views(
    day: &[u8],
    line: usize,
    views: &mut [View; 56],
    count: &mut usize,
) -> u32
    ensures { (result ≡ view_fault day.now line 0)
        × (views.new ≡ sets views.old 0 (line_views day.now line))
        × (count.new ≡ length (line_views day.now line)) }
{
    match line_views(day, line, views) {
        Ok(steps) => {
            *count = steps;
            0
        }
        Err(refusal) => {
            *count = 0;
            u32::from(refusal)
        }
    }
}
