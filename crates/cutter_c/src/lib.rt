// The cutter for programs in C and other languages; include/mewikofu.h declares it.

#![tactic(auto)]

ghost use Rattle.std.specs.Prelude.{◌≡◌};
ghost use Rattle.rules.specs.Cutting.{cut_answer};

use cutter::cut;
use rules::Cut;

// The cutter (document 01, "Steps and prices"), for any bytes. Every field of the answer is fixed, for refused bytes too, and it has no
// other bytes.
#[unsafe(no_mangle)]
pub extern "C" fn mewikofu_cut(line: &[u8]) -> Cut
    ensures { result ≡ cut_answer line.now }
{
    cut(line)
}
