// A part of a plan: the places of the cells of one form, or of a patch.
ghost use Rattle.std.specs.Prelude.{◌≡◌, ℕ, ◌<◌, ◌≤◌, slice_index};

mod calls;

// Cells are numbered from 1: cell t has the place places[t - 1]. The steady cell is 0.
// A part may be made of any places, in any order, of which none is past the steady place, and that is below 128.
#[derive(Drop)]
pub struct Part<'a> {
    pub places: &'a [u8],
    pub steady: usize,
    ghost few: { steady < 128 },
    ghost bound: { (i : ℕ) → slice_index places.now i ≤ steady },
}
