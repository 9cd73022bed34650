// The certificate's clauses on matches, on a real call of the step view: the matches that it answers are held against the rises and falls
// of the C that it answers (document 01, "Matching"). By the certificate they always agree.
ghost use Rattle.std.specs.Prelude.{◌≡◌, true};

use step_balance::{balance_agrees, falls_agree, rises_agree};
use view::view;

// Asks the view for one step and holds its matches against its C: by the certificate they agree.
#[tactic(auto, using(crate::specs::Matches::balanced))]
pub fn matches_agree(day: &[u8], line: usize, step: usize) -> bool
    ensures { result ≡ true }
{
    let v = view(day, line, step);
    if v.number != 0 {
        true
    } else {
        falls_agree(v.constrained, v.matches)
            && rises_agree(v.constrained, v.matches)
            && balance_agrees(v.constrained, v.matches)
    }
}
