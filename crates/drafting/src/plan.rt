// The plan of a draft: which place each cell gets. Cells of earlier positions come first, and the steady place comes last.
ghost use Rattle.std.specs.Prelude.{◌≡◌, ℕ, ◌+◌, ◌<◌, ◌≤◌, length, slice_index, slice_set};
ghost use Rattle.drafting.specs.Plan.{PlacedBy, PlacingBy};
ghost use Rattle.settling.specs.Draft.{Ordered};

use settling::draft::Places;

// The places of a draft, and which of them some cells have, numbered from 0: place[c] is the place of cell c.
// kept: a table of fixed size, of which as many count as there are cells, since the library uses no heap.
#[derive(Clone, Copy)]
pub struct Plan {
    pub places: Places,
    pub place: [u8; 128],
    ghost wide: { length place ≡ 128 },
    ghost bound: { (i : ℕ) → slice_index place i ≤ places.cells },
}

// The places with one cell more, of position p, behind the others.
fn with_cell(places: &Places, p: u8) -> Places
    requires few { places.now.cells < 127 }
    requires order { Ordered (places.now.cells + 1) (slice_set places.now.pos places.now.cells p) }
    ensures cells { result.cells ≡ places.now.cells + 1 }
    ensures pos { result.pos ≡ slice_set places.now.pos places.now.cells p }
{
    let mut pos = places.pos;
    pos[places.cells] = p;
    Places {
        cells: places.cells + 1,
        pos,
    }
}

impl Plan {
    // Places the cells of position p behind those that are placed.
    fn place_position(&mut self, positions: &[u8], n: u8, p: u8)
        requires few { length positions.now ≤ 127 }
        requires early { p < n }
        requires before { PlacingBy positions.now (length positions.now) n p 0 self.old.places self.old.place }
        ensures { PlacingBy positions.now (length positions.now) n p (length positions.now) self.new.places self.new.place }
    {
        // kept: tried zip over place.iter_mut(), after which nothing is known of what stands in place
        for (c, position) in positions.iter().enumerate() {
            if *position == p {
                self.place[c] = self.places.cells as u8;
                self.places = with_cell(&self.places, p);
            }
        }
    }
}

// Gives the cells whose positions are listed a place each.
pub fn place_cells(positions: &[u8], n: u8) -> Plan
    requires few { length positions.now ≤ 127 }
    ensures { PlacedBy positions.now (length positions.now) n result.places result.place }
{
    let mut plan = Plan {
        places: Places {
            cells: 0,
            pos: [n; 128],
        },
        place: [0; 128],
    };
    for p in 0..n {
        plan.place_position(positions, n, p);
    }
    plan
}
