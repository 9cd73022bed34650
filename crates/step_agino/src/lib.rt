// AGINO of a step, carried back from schedule 5 (document 01, "Quantities").

#![tactic(auto)]

ghost use Rattle.std.specs.Prelude.{◌≡◌};
ghost use Rattle.rules.specs.Fold.{five};
ghost use Rattle.rules.specs.Quantities as rule;

// AGINO, from O and A. What is carried back from schedule 5, (O(5) - A) - (O(5) - l), is l - A, where l is the least of O from s on.
pub fn agino(o: [u32; 5], a: u32) -> [u32; 5]
    ensures { result ≡ five (rule.agino o a) }
{
    let mut least = o;
    for s in (0..4).rev() {
        least[s] = least[s].min(least[s + 1]);
    }
    least.map(|l| l.saturating_sub(a))
}
