// Why a day file, a line or a call is refused: the rows of document 01's table "Where each refusal is checked", 19 to 21 by document 02, F-5.

#![tactic(auto)]

ghost use Rattle.std.specs.Prelude.{◌≡◌};
ghost use Rattle.refusals.specs.Numbers.{number, fault_of};

#[derive(Clone, Copy, Debug, PartialEq, Eq)]
pub enum Refusal {
    FileShort,
    LineCount,
    Layout,
    MarketPrice,
    MarketMark,
    SideOrAccreditation,
    BidCount,
    Breaks,
    Prices,
    UnusedSlot,
    Hedge,
    Totals,
    Actuals,
    EqualKeys,
    BookShort,
    NoLine,
    NoStep,
    LineLength,
    AdHocCount,
    AdHocLineOrSchedule,
    EqualAdHoc,
}

// The refusal's number in the table.
impl From<Refusal> for u32 {
    ghost from_gives = { λ refusal n. n ≡ number refusal };

    fn from(refusal: Refusal) -> u32 {
        match refusal {
            Refusal::FileShort => 1,
            Refusal::LineCount => 2,
            Refusal::Layout => 3,
            Refusal::MarketPrice => 4,
            Refusal::MarketMark => 5,
            Refusal::SideOrAccreditation => 6,
            Refusal::BidCount => 7,
            Refusal::Breaks => 8,
            Refusal::Prices => 9,
            Refusal::UnusedSlot => 10,
            Refusal::Hedge => 11,
            Refusal::Totals => 12,
            Refusal::Actuals => 13,
            Refusal::EqualKeys => 14,
            Refusal::BookShort => 15,
            Refusal::NoLine => 16,
            Refusal::NoStep => 17,
            Refusal::LineLength => 18,
            Refusal::AdHocCount => 19,
            Refusal::AdHocLineOrSchedule => 20,
            Refusal::EqualAdHoc => 21,
        }
    }
}

// What a call answers in C: 0, or the refusal's number.
pub fn number_of(checked: Result<(), Refusal>) -> u32
    ensures { result ≡ fault_of checked }
{
    match checked {
        Ok(()) => 0,
        Err(refusal) => u32::from(refusal),
    }
}
