// Plain arithmetic that the other crates share: a price turned by the side, a signed difference, and a share t * d / b.

#![tactic(auto)]

ghost use Rattle.std.specs.Prelude.{◌≡◌, ◌*◌, ◌/◌, ◌<◌, ◌≤◌, ◌^◌};
ghost use Rattle.std.proofs.Math.IntN.{sub_ℕ};
ghost use Rattle.numbers.specs.Turned as law;

// A price as it is, or that of a withdrawal taken from the greatest word: the prices of both sides are then compared as an injection's.
#[tactic(auto, unfolding(crate::specs::Turned::turned))]
pub fn turned(side: u32, p: u32) -> u32
    ensures { result ≡ law.turned side p }
{
    if side == 1 { u32::MAX - p } else { p }
}

// plus - minus
pub fn signed_difference(plus: u64, minus: u64) -> i64
    requires { (plus < 2 ^ 63) × (minus < 2 ^ 63) }
    ensures { result ≡ sub_ℕ plus minus }
{
    plus as i64 - minus as i64
}

// t * d / b, rounded down, of which no bit is lost: d is at most b, and each part fits.
pub fn share(t: u64, d: u64, b: u64) -> u64
    requires { (0 < b) × (d ≤ b) × (b < 2 ^ 34) × (d < 2 ^ 28) }
    ensures { result ≡ t * d / b }
{
    t / b * d + t % b * d / b
}
