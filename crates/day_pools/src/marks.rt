// A word of marks: bit i is the mark of place i.
ghost use Rattle.std.specs.Prelude.{◌≡◌, ◌+◌, ◌*◌, ◌<◌, ◌^◌};
ghost use Rattle.rules.specs.Payments.{bit};

// A word of i marks with one more.
pub fn with_mark(word: u64, mark: bool, i: usize) -> u64
    requires { (word < 2 ^ i) × (i < 56) }
    ensures { result ≡ word + bit mark * 2 ^ i }
{
    word + (u64::from(mark) << i)
}
