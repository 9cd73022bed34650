// Where the numbers of a book stand in its bytes (document 01, "Totals and book"): specs/Framing.antt has the place of each, and that a
// day's numbers are read back from a day's book.

#![tactic(auto)]

ghost use Rattle.std.specs.Prelude.{◌≡◌, ◌^◌, ◌<◌};
ghost use Rattle.book_layout.specs.Framing.{entry_at};

// The place of entry k, which is the length of a book of k lines.
pub fn entry_at(k: usize) -> usize
    requires { entry_at k < 2 ^ 64 }
    ensures { result ≡ entry_at k }
{
    96 + 56 * k
}
