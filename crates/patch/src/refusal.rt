// Why a call is refused: each cause has a number, and those that blame a record of a patch its place, counted from 0.
ghost use Rattle.std.specs.Prelude.{◌≡◌, Some};
ghost use Rattle.patch.specs.Listing.{refusal_words};
ghost use Rattle.patch.specs.Refusals.{number, place};

use std::error::Error;
use std::fmt;

#[derive(Clone, Copy, Debug, PartialEq, Eq)]
pub enum Refusal {
    InputCount,
    InputList,
    FewStrips,
    NoSlot,
    TieRange,
    NoCode,
    SettingRange,
    FewWorkingStrips,
    ShortOutput,
    LongPatch,
    BrokenRecord,
    UnknownMark(usize),
    NotZero(usize),
    CellInput(usize),
    CellLimit(usize),
    UnknownCell(usize),
    NotLater(usize),
    ArcCode(usize),
    TooManyCells,
}

impl Refusal {
    // The number of the cause.
    // kept: written out, since docs/REFUSALS.md gives each cause its number and a cause may carry a place.
    pub fn number(&self) -> u8
        ensures { result ≡ number self.now }
    {
        match self {
            Refusal::InputCount => 1,
            Refusal::InputList => 2,
            Refusal::FewStrips => 3,
            Refusal::NoSlot => 4,
            Refusal::TieRange => 5,
            Refusal::NoCode => 6,
            Refusal::SettingRange => 7,
            Refusal::FewWorkingStrips => 8,
            Refusal::ShortOutput => 9,
            Refusal::LongPatch => 10,
            Refusal::BrokenRecord => 11,
            Refusal::UnknownMark(_) => 12,
            Refusal::NotZero(_) => 13,
            Refusal::CellInput(_) => 14,
            Refusal::CellLimit(_) => 15,
            Refusal::UnknownCell(_) => 16,
            Refusal::NotLater(_) => 17,
            Refusal::ArcCode(_) => 18,
            Refusal::TooManyCells => 19,
        }
    }

    // The place of the record that is blamed, 0 where none is.
    // kept: 0 and no Option, since the line of a refusal prints it so.
    pub fn place(&self) -> usize
        ensures { result ≡ place self.now }
    {
        match self {
            Refusal::UnknownMark(k)
            | Refusal::NotZero(k)
            | Refusal::CellInput(k)
            | Refusal::CellLimit(k)
            | Refusal::UnknownCell(k)
            | Refusal::NotLater(k)
            | Refusal::ArcCode(k) => *k,
            _ => 0,
        }
    }
}

impl fmt::Display for Refusal {
    ghost output = { λ e. Some (refusal_words e) };

    fn fmt<W: fmt::Write>(&self, f: &mut fmt::Formatter<W>) -> fmt::Result {
        write!(f, "refused {} {}", self.number(), self.place())
    }
}

impl Error for Refusal {}
