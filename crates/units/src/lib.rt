// The kinds quantity and price: whole numbers up to document 01's limits, as read from a word.

#![tactic(auto)]

ghost use Rattle.std.specs.Prelude.{◌≡◌, ◌+◌, ◌≤◌, ℕ, length};
ghost use Rattle.rules.specs.Layout.{word, quantity_most, price_most};
ghost use Rattle.units.specs.Kinds.{read_within, quantity, price};

use bytes_le::word_at;

// A kind of numbers up to a limit.
pub trait Kind: Sized {
    ghost MOST: { ℕ };

    const MOST: u32;

    ghost of: { ℕ → Self };

    // The number of this kind that is `value`.
    fn of(value: u32) -> Self
        requires { value ≤ MOST }
        ensures { result ≡ of value };

    // The word at byte `at`, unless it is above the limit.
    fn read(b: &[u8], at: usize) -> Option<Self>
        requires { at + 4 ≤ length b.now }
        ensures { result ≡ read_within MOST of (word b.now at) }
    {
        let value = word_at(b, at);
        if value <= Self::MOST {
            Some(Self::of(value))
        } else {
            None
        }
    }
}

// whole MJ
#[derive(Clone, Copy)]
pub struct Quantity {
    pub mj: u32,
}

impl Kind for Quantity {
    ghost MOST = { quantity_most };

    const MOST: u32 = 200000000;

    ghost of = { quantity };

    fn of(mj: u32) -> Quantity {
        Quantity { mj }
    }
}

// whole units of $0.0001 per GJ
#[derive(Clone, Copy)]
pub struct Price {
    pub units: u32,
}

impl Kind for Price {
    ghost MOST = { price_most };

    const MOST: u32 = 10000000;

    ghost of = { price };

    fn of(units: u32) -> Price {
        Price { units }
    }
}
