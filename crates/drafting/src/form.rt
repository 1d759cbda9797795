// A canonical form as it stands in strips, read only: the outlet's strip first, and after it the strip of each cell.
// Its places are numbered from the steady cell, 0.
ghost use Rattle.std.specs.Prelude.{⊤, ◌≡◌, ◌≤◌, length};

use std::alloc::AllocError;

// kept: two slices, since a slot's strips and inputs are kept apart, and there is a strip more.
// The form of a slot: its outlet is strips[0], cell k is strips[k] and reads inputs[k - 1]; it has as many cells as inputs.
pub struct FormView<'a, S> {
    pub strips: &'a [S],
    pub inputs: &'a [u8],
    ghost few: { length inputs.now ≤ 31 },
    ghost wide: { 32 ≤ length strips.now },
}

// kept: Clone and Copy by hand: derive and derive_where were tried, and Clone is refused for a generic struct with ghost fields
impl<'a, S> Clone for FormView<'a, S> {
    ghost is_clone = { λ x y. y ≡ x };

    ghost is_infallible = { λ _. ⊤ };

    fn clone(&self) -> Result<Self, AllocError> {
        Ok(*self)
    }
}

impl<'a, S> Copy for FormView<'a, S> {}
