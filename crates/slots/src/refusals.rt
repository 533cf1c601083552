// The fourteen refusals.
ghost use Rattle.std.specs.Prelude.{◌≡◌};
ghost use Rattle.slots.specs.Refusals.{number_of, number_in};

use std::error::Error;
use std::fmt;

#[derive(Clone, Copy, Debug, PartialEq, Eq, Hash)]
pub enum Refusal {
    TableNotSound,
    ImageNotWhole,
    SeatTooHigh,
    SeatOpen,
    SeatNotOpen,
    SeatNotEnded,
    NoFrame,
    TooManyInstrs,
    InstrNotLegal,
    CellTooHigh,
    SlotTooHigh,
    ShelfDamaged,
    OnNeitherShelf,
    DestinationTooShort,
}

// Its number in the description's table.
impl From<Refusal> for u32 {
    ghost from_gives = { λ r n. n ≡ number_of r };

    fn from(r: Refusal) -> u32 {
        match r {
            Refusal::TableNotSound => 1,
            Refusal::ImageNotWhole => 2,
            Refusal::SeatTooHigh => 3,
            Refusal::SeatOpen => 4,
            Refusal::SeatNotOpen => 5,
            Refusal::SeatNotEnded => 6,
            Refusal::NoFrame => 7,
            Refusal::TooManyInstrs => 8,
            Refusal::InstrNotLegal => 9,
            Refusal::CellTooHigh => 10,
            Refusal::SlotTooHigh => 11,
            Refusal::ShelfDamaged => 12,
            Refusal::OnNeitherShelf => 13,
            Refusal::DestinationTooShort => 14,
        }
    }
}

impl fmt::Display for Refusal {
    fn fmt<W: fmt::Write>(&self, f: &mut fmt::Formatter<W>) -> fmt::Result {
        f.write_str(match self {
            Refusal::TableNotSound => "table not sound",
            Refusal::ImageNotWhole => "image not 1,024 cells",
            Refusal::SeatTooHigh => "seat above 15",
            Refusal::SeatOpen => "seat already open",
            Refusal::SeatNotOpen => "seat not open",
            Refusal::SeatNotEnded => "seat not ended",
            Refusal::NoFrame => "no frame",
            Refusal::TooManyInstrs => "more than 64 instructions",
            Refusal::InstrNotLegal => "an instruction not legal",
            Refusal::CellTooHigh => "cell above 1,023",
            Refusal::SlotTooHigh => "slot above 63",
            Refusal::ShelfDamaged => "a shelf damaged",
            Refusal::OnNeitherShelf => "number on neither shelf",
            Refusal::DestinationTooShort => "destination too short",
        })
    }
}

impl Error for Refusal {}

// The number of an answer: 0 where nothing is refused.
pub fn number_in<T: Drop>(answer: Result<T, Refusal>) -> u32
    ensures { result ≡ number_in answer }
{
    match answer {
        Ok(_) => 0,
        Err(r) => u32::from(r),
    }
}
