// The scan order: in which order the inputs are read, and at which position each is.
ghost use Rattle.std.specs.Prelude.{◌≡◌, ◌≤◌, length};
ghost use Rattle.patch.specs.Undoes.{Undoes};

mod calls;

// The first `count` places of both tables count, and there the tables undo each other.
// kept: tables of fixed size with the count beside them, since the library uses no heap.
#[derive(Clone, Copy)]
pub struct ScanOrder {
    count: u8,
    inputs: [u8; 24],
    positions: [u8; 24],
    ghost some: { 1 ≤ count },
    ghost few: { count ≤ 24 },
    ghost room: { length inputs ≡ 24 },
    ghost there: { Undoes count inputs positions },
    ghost back: { Undoes count positions inputs },
}
