// Uplift by schedule for other languages.
ghost use Rattle.std.specs.Prelude.{◌≡◌};
ghost use Rattle.rules.specs.Uplift.{uplift_answer};

use day_uplift::uplift;

// The uplift of a day (document 02, F-1), for any bytes. Answers the number, and the five shares in the lent places: zeros where it is refused.
#[unsafe(no_mangle)]
pub extern "C" fn mewikofu_uplift(day: &[u8], shares: &mut [i64; 5]) -> u32
    ensures value { result ≡ (uplift_answer day.now).number }
    ensures shares_after { shares.new ≡ (uplift_answer day.now).shares }
{
    match uplift(day) {
        Ok(row) => {
            *shares = row;
            0
        }
        Err(refusal) => {
            *shares = [0; 5];
            u32::from(refusal)
        }
    }
}
