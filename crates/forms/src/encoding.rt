// The bytes of a form: its cell records, then the on arcs by cell and target, then the outlet arcs by target.
ghost use Rattle.std.specs.Prelude.{◌≡◌, ℕ, ◌+◌, ◌*◌, ◌<◌, ◌≤◌, length, take};
ghost use Rattle.elimination.specs.Rows.{Rows};
ghost use Rattle.forms.specs.Continued.{Continued};
ghost use Rattle.forms.specs.Forms.{form_bytes, cell_bytes, arc_bytes, row_bytes};

use drafting::FormView;
use strip::Strip;

// Room for every form: 31 cells, at most 31 arcs from each, and at most 32 outlet arcs are fewer than 1,024 records.
pub const ENCODED_ROOM: usize = 4096;

// The records that are put one behind the other into an output, and the place behind the last of them.
// kept: an array and a place in it, since nothing is allocated here: the output is memory of fixed size that a caller lends
#[derive(Drop)]
struct Encoder<'a> {
    out: &'a mut [u8; 4096],
    at: usize,
}

impl<'a> Encoder<'a> {
    // Puts a record.
    fn put(&mut self, four: [u8; 4])
        requires room { self.old.at + 4 ≤ 4096 }
        ensures next { self.new.at ≡ self.old.at + 4 }
        ensures puts { Continued self.old four self.new }
    {
        let out = &mut *self.out;
        out[self.at..self.at + 4].copy_from_slice(&four);
        self.at += 4;
    }

    // Puts a cell record for each cell.
    fn put_cells(&mut self, inputs: &[u8])
        requires room { self.old.at + 4 * length inputs.now ≤ 4096 }
        ensures most { self.new.at ≡ self.old.at + 4 * length inputs.now }
        ensures puts { Continued self.old (cell_bytes inputs.now (length inputs.now)) self.new }
    {
        for input in inputs {
            self.put([1, *input, 0, 0]);
        }
    }

    // Puts an arc for each filled one of the first places of a row: mark, from, target, code.
    fn put_arcs<S: Strip>(&mut self, row: &S, places: usize, mark: u8, from: u8)
        requires few { places ≤ 32 }
        requires room { self.old.at + 4 * places ≤ 4096 }
        ensures most { self.new.at ≤ self.old.at + 4 * places }
        ensures puts { Continued self.old (arc_bytes mark from (S.code row.now) places) self.new }
    {
        // kept: a range, since a strip is asked for its codes by place and has no slice of them
        for t in 0..places {
            let c = row.ask(t);
            if c != 0 {
                self.put([mark, from, t as u8, c]);
            }
        }
    }

    // Puts the on arcs of each cell.
    fn put_rows<S: Strip>(&mut self, form: &FormView<S>)
        requires room { self.old.at ≤ 124 }
        ensures most { self.new.at ≤ 3968 }
        ensures puts { Continued self.old (row_bytes (Rows S.code form.now.strips.now 0) (length form.now.inputs.now)) self.new }
    {
        let strips = form.strips;
        for (k, row) in strips[1..form.inputs.len() + 1].iter().enumerate() {
            self.put_arcs(row, k + 1, 3, k as u8 + 1);
        }
    }
}

// Writes the form's bytes, and answers how many there are.
pub fn encode<S: Strip>(form: &FormView<S>, out: &mut [u8; 4096]) -> usize
    ensures most { result ≤ 4096 }
    ensures long { result ≡ length (form_bytes S.code form.now.strips.now 0 (length form.now.inputs.now) form.now.inputs.now) }
    ensures bytes { take result out.new ≡ form_bytes S.code form.now.strips.now 0 (length form.now.inputs.now) form.now.inputs.now }
{
    let strips = form.strips;
    let mut records = Encoder { out, at: 0 };
    records.put_cells(form.inputs);
    records.put_rows(form);
    records.put_arcs(&strips[0], form.inputs.len() + 1, 4, 0);
    records.at
}
