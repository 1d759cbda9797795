// How a part of a plan is lent, and the places it gives.
ghost use Rattle.std.specs.Prelude.{◌≡◌, ◌+◌, ◌≤◌, length};
ghost use Rattle.drafting.specs.Forms.{place_of, PartOf};

use super::Part;
use crate::plan::Plan;

impl Plan {
    // The part of `count` cells, from the cell `from` on.
    pub fn part(&self, from: usize, count: usize) -> Part<'_>
        requires few { from + count ≤ 128 }
        ensures { PartOf self.now from count result }
    {
        Part {
            places: &self.place[from..from + count],
            steady: self.places.cells,
        }
    }
}

impl Part<'_> {
    // How many cells there are.
    pub fn cells(&self) -> usize
        ensures { result ≡ length self.now.places.now }
    {
        self.places.len()
    }

    // The place of cell t, where 0 counts as the steady cell, and so does any number past the cells.
    // kept: the steady place and no Option, since `place_of` gives it to every number that is no cell's.
    pub fn place(&self, t: usize) -> usize
        ensures is { result ≡ place_of self.now t }
        ensures within { result ≤ self.now.steady }
    {
        match t.checked_sub(1).and_then(|i| self.places.get(i)) {
            Some(place) => *place as usize,
            None => self.steady,
        }
    }
}
