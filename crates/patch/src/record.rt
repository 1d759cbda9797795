// Records: four bytes each, marked by the first.
ghost use Rattle.std.specs.Prelude.{◌≡◌, ◌||◌, length, ◌==◌, nat_lt, slice_index};
ghost use Rattle.patch.specs.Judging.{Judges, told};
ghost use Rattle.patch.specs.Faults.{position};
ghost use Rattle.patch.specs.Orders.{listed};

use crate::cells::Cells;
use crate::refusal::Refusal;
use crate::setup::Setup;

// What a record without a fault says. Arcs have the cell they come from, the cell they lead to, and their code.
// kept: these three by place, since a struct for them would be one more name at each match and say the same.
#[derive(Clone, Copy, Debug, PartialEq, Eq)]
pub enum Record {
    Filler,
    Cell(u8),
    Off(u8, u8, u8),
    On(u8, u8, u8),
    Outlet(u8, u8),
}

// Whether an arc leads to the steady cell, or to a cell whose input is read later.
fn leads_later(from: u8, to: u8, cells: &Cells, setup: &Setup) -> bool
    ensures { result ≡ (to == 0) || nat_lt (position (listed setup.now.order) (slice_index cells.now.inputs from)) (position (listed setup.now.order) (slice_index cells.now.inputs to)) }
{
    let order = &setup.order;
    to == 0 || order.position(cells.input(from)) < order.position(cells.input(to))
}

// Judges the record at a place, after those before it declared `cells`. The tests come in the order of the refusals' numbers.
pub fn check_record(
    record: &[u8],
    place: usize,
    cells: &Cells,
    setup: &Setup,
) -> Result<Record, Refusal>
    requires { length «record».now ≡ 4 }
    ensures { Judges (listed setup.now.order) setup.now.places setup.now.codes cells.now place «record».now result }
{
    match record {
        [5..=255, _, _, _] => Err(Refusal::UnknownMark(place)),
        [0, 0, 0, 0] => Ok(Record::Filler),
        [1, i, 0, 0] if setup.order.count() <= *i => Err(Refusal::CellInput(place)),
        [1, _, 0, 0] if cells.full(setup.places) => Err(Refusal::CellLimit(place)),
        [1, i, 0, 0] => Ok(Record::Cell(*i)),
        [2 | 3, f, t, _] if cells.lacks(*f, *t) => Err(Refusal::UnknownCell(place)),
        [2 | 3, f, t, _] if !leads_later(*f, *t, cells, setup) => Err(Refusal::NotLater(place)),
        [2 | 3, _, _, c] if setup.codes <= *c => Err(Refusal::ArcCode(place)),
        [2, f, t, c] => Ok(Record::Off(*f, *t, *c)),
        [3, f, t, c] => Ok(Record::On(*f, *t, *c)),
        [4, 0, t, _] if !cells.has(*t) => Err(Refusal::UnknownCell(place)),
        [4, 0, _, c] if setup.codes <= *c => Err(Refusal::ArcCode(place)),
        [4, 0, t, c] => Ok(Record::Outlet(*t, *c)),
        [_, _, _, _] => Err(Refusal::NotZero(place)),
        _ => unreachable(),
    }
}

// Reads four bytes that passed the check.
// kept: written out and no From, since any four bytes can be given to a From, and these must have passed the check.
pub fn read_record(bytes: &[u8]) -> Record
    ensures { result ≡ told bytes.now }
{
    match bytes {
        [1, i, _, _] => Record::Cell(*i),
        [2, f, t, c] => Record::Off(*f, *t, *c),
        [3, f, t, c] => Record::On(*f, *t, *c),
        [4, _, t, c] => Record::Outlet(*t, *c),
        _ => Record::Filler,
    }
}
