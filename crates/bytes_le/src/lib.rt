// Words and signed 64-bit numbers, little-endian, read from lent bytes and put into them.

#![tactic(auto)]

ghost use Rattle.std.specs.Prelude.{◌≡◌, ◌+◌, ◌≤◌, length};
ghost use Rattle.std.proofs.lemmas.List.Edits.{sets};
ghost use Rattle.rules.specs.Layout.{word};
ghost use Rattle.rules.specs.Book.{le, signed_bytes};
ghost use Rattle.bytes_le.specs.Wide.{long_word, signed_of};

// The word whose first byte is byte `at`.
pub fn word_at(b: &[u8], at: usize) -> u32
    requires { at + 4 ≤ length b.now }
    ensures { result ≡ word b.now at }
{
    u32::from_le_bytes(*b[at..at + 4].as_array().unwrap())
}

// The 64 bits whose first byte is byte `at`.
pub fn long_at(b: &[u8], at: usize) -> u64
    requires { at + 8 ≤ length b.now }
    ensures { result ≡ long_word b.now at }
{
    u64::from_le_bytes(*b[at..at + 8].as_array().unwrap())
}

// The signed 64-bit number whose first byte is byte `at`.
pub fn signed_at(b: &[u8], at: usize) -> i64
    requires { at + 8 ≤ length b.now }
    ensures { result ≡ signed_of (long_word b.now at) }
{
    long_at(b, at).cast_signed()
}

// A word put from byte `at` on.
#[tactic(auto, using(crate::proofs::Stores::put_word_is))]
pub fn put_word(b: &mut [u8], at: usize, v: u32)
    requires { at + 4 ≤ length b.old }
    ensures { b.new ≡ sets b.old at (le 4 v) }
{
    b[at..at + 4].copy_from_slice(&v.to_le_bytes());
}

// A 64-bit number put from byte `at` on.
#[tactic(auto, using(crate::proofs::Stores::put_long_is))]
pub fn put_long(b: &mut [u8], at: usize, v: u64)
    requires { at + 8 ≤ length b.old }
    ensures { b.new ≡ sets b.old at (le 8 v) }
{
    b[at..at + 8].copy_from_slice(&v.to_le_bytes());
}

// A signed 64-bit number put from byte `at` on.
pub fn put_signed(b: &mut [u8], at: usize, v: i64)
    requires { at + 8 ≤ length b.old }
    ensures { b.new ≡ sets b.old at (signed_bytes v) }
{
    put_long(b, at, v.cast_unsigned());
}
