// Money is worked out as what is paid and what is taken back, and becomes signed at the end (document 01, "Payments").
ghost use Rattle.std.specs.Prelude.{◌≡◌};
ghost use Rattle.rules.specs.Fold.{five};
ghost use Rattle.step_payments.specs.Amounts.{signed_payment, Signable};

use crate::amounts::Money;
use numbers::signed_difference;
use std::array::from_fn;

// Money as signed payments.
pub fn signed_money(m: Money) -> [i64; 5]
    requires { Signable m }
    ensures { result ≡ five (signed_payment m) }
{
    from_fn(|s| signed_difference(m.plus[s], m.minus[s]))
}
