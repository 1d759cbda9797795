// What a rack is made of. The calls on it stand in the module below.
ghost use Rattle.std.specs.Prelude.{◌≡◌, ℕ, ◌≤◌, length, replicate, slice_index, take};
ghost use Rattle.patch.specs.Orders.{listed};
ghost use Rattle.rack.specs.Describing.{noted_input};

use patch::ScanOrder;
use settling::draft::Form;
use strip::Strip;

pub mod calls;
pub mod opening;

// The slots of a rack.
pub const SLOTS: usize = 16;

// The strips that they need: an outlet and at most 31 cells to a slot.
pub const STRIPS: usize = 512;

// The strips of one slot.
pub const SLOT_STRIPS: usize = 32;

// What is kept of a slot besides its strips: the number of its cells, and the input that each reads.
// kept: an array and a count, since a rack allocates nothing, and its descriptors are one plain struct of fixed size
#[derive(Clone, Copy)]
pub struct Slot {
    count: u8,
    inputs: [u8; 31],
    ghost few: { count ≤ 31 },
}

// The plain part of a rack: its scan order, and its slots.
// kept: an array of descriptors, since a rack allocates nothing, and they are lent one by one to be changed
#[derive(Clone, Copy)]
pub struct Desk {
    order: ScanOrder,
    slots: [Slot; 16],
}

// A rack over a lent slice of strips. Strip 32 × s has the outlet of slot s, and strip 32 × s + k its cell k.
#[derive(Drop)]
pub struct Rack<'a, S: Strip> {
    strips: &'a mut [S],
    desk: Desk,
}

impl Slot {
    // A slot without cells.
    fn silent() -> Slot
        ensures count { result.count ≡ 0 }
        ensures inputs { result.inputs ≡ replicate 31 0 }
    {
        Slot {
            count: 0,
            inputs: [0; 31],
        }
    }

    // The inputs that the cells read.
    fn inputs(&self) -> &[u8]
        ensures { result.now ≡ take self.now.count self.now.inputs }
    {
        let inputs = &self.inputs[..];
        &inputs[..self.count as usize]
    }

    // Describes a settled form: its number of cells, and their inputs in the scan order.
    fn describe<S: Strip>(&mut self, form: &Form<S>, order: &ScanOrder)
        ensures count { self.new.count ≡ form.now.places.cells }
        ensures inputs { (k : ℕ) → slice_index self.new.inputs k ≡ noted_input (listed order.now) form.now.places.cells form.now.places.pos k }
    {
        let cells = form.places.cells;
        let pos = &form.places.pos[..];
        let mut inputs = [0; 31];
        // kept: inputs by k, since after a zip over inputs.iter_mut() nothing is known of what stands in them
        for (k, p) in pos[1..cells + 1].iter().enumerate() {
            inputs[k] = order.input(*p);
        }
        self.count = cells as u8;
        self.inputs = inputs;
    }
}
