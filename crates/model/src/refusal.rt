// Why a call was refused: one case for each number, with the values that it tells.
ghost use Rattle.std.specs.Prelude.{◌≡◌, Some};
ghost use Rattle.model.specs.Refusals.{number};
ghost use Rattle.model.specs.Texts.{refusal_text};

use std::error::Error;
use std::fmt;

#[derive(Clone, Copy, PartialEq, Eq, Debug)]
pub enum Refusal {
    ParametersOutOfRange,
    CellsOutOfRange,
    SheetOutOfRange,
    NoSuchParameter,
    PositionBeyondRoll,
    PositionNotBeyondLast,
    NoFreePlace,
    NothingToWithdraw,
    BarOutOfRange,
    TooManyBars,
    NoSuchEntry,
    LimitsOutOfOrder,
    ShareTooGreat,
    WithoutLimits { parameter: u8 },
    WorkTooShort,
    EndsTooShort { sheets: u32 },
}

impl Refusal {
    // The number under which the rules list it. A case that tells a value has no discriminant to cast, so the numbers
    // stand here.
    pub fn number(self) -> u8
        ensures { result ≡ number self }
    {
        match self {
            Refusal::ParametersOutOfRange => 1,
            Refusal::CellsOutOfRange => 2,
            Refusal::SheetOutOfRange => 3,
            Refusal::NoSuchParameter => 4,
            Refusal::PositionBeyondRoll => 5,
            Refusal::PositionNotBeyondLast => 6,
            Refusal::NoFreePlace => 7,
            Refusal::NothingToWithdraw => 8,
            Refusal::BarOutOfRange => 9,
            Refusal::TooManyBars => 10,
            Refusal::NoSuchEntry => 11,
            Refusal::LimitsOutOfOrder => 12,
            Refusal::ShareTooGreat => 13,
            Refusal::WithoutLimits { parameter: _ } => 14,
            Refusal::WorkTooShort => 15,
            Refusal::EndsTooShort { sheets: _ } => 16,
        }
    }
}

// The number, and the value that the refusal tells.
impl fmt::Display for Refusal {
    ghost output = { λ e. Some (refusal_text e) };

    fn fmt<W: fmt::Write>(&self, f: &mut fmt::Formatter<W>) -> fmt::Result {
        write!(f, "{}", self.number())?;
        match self {
            Refusal::WithoutLimits { parameter } => write!(f, ", parameter {parameter}"),
            Refusal::EndsTooShort { sheets } => write!(f, ", sheets {sheets}"),
            _ => Ok(()),
        }
    }
}

impl Error for Refusal {}
