// The draft of a patch: its cells in the order of their positions, each arc's code added to a row.
ghost use Rattle.std.specs.Prelude.{◌≡◌, ℕ, ◌+◌, ◌<◌, ◌≤◌, [], length};
ghost use Rattle.drafting.specs.Arcs.{Positions, spots, Entered, Summed};
ghost use Rattle.drafting.specs.Drafts.{AddedIn, Blank, draft_of};
ghost use Rattle.drafting.specs.Meaning.{Drafts, patch_rule};
ghost use Rattle.elimination.specs.Rows.{Outside, Rows};
ghost use Rattle.patch.specs.Judging.{meant};
ghost use Rattle.patch.specs.Orders.{listed};
ghost use Rattle.patch.specs.Paths.{code as code_of_record};
ghost use Rattle.patch.specs.Records.{records, declared, cells_of};
ghost use Rattle.patch.specs.Windows.{seen};
ghost use Rattle.settling.specs.Draft.{Beyond, Bounded};
ghost use Rattle.settling.specs.Settling.{Sound};

use crate::plan::{Plan, place_cells};
use crate::rows::{add_at, add_in, clear_work, still_whole};
use patch::{Patch, Record, ScanOrder, Setup};
use scale::Scale;
use settling::draft::{DIF, Draft, OFF};
use settling::work::{Work, over};
use strip::Strip;

// Lists the positions of the patch's cells, and answers how many there are.
// kept: a list of fixed size and how many count beside it, since the library uses no heap; counted by hand, since only cell records are listed.
fn cell_positions(patch: &Patch, positions: &mut [u8; 128]) -> usize
    requires some { 0 < patch.now.setup.places }
    requires few { patch.now.setup.places ≤ 128 }
    ensures count { result ≡ cells_of (records (seen patch.now)) }
    ensures within { result < patch.now.setup.places }
    ensures positions { Positions (listed patch.now.setup.order) (declared [] (records (seen patch.now))) positions.new }
{
    let order = patch.order();
    let mut count = 0;
    for record in patch.records() {
        if let Record::Cell(input) = record {
            positions[count] = order.position(input);
            count += 1;
        }
    }
    count
}

// The place of a cell by its number, where cell 0 is the steady one. A plan has room for 128 cells: any number past them counts as the steady one too.
fn cell_place(plan: &Plan, cell: u8) -> usize
    ensures within { result ≤ plan.now.places.cells }
    ensures is { result ≡ spots plan.now cell }
{
    plan.part(0, 128).place(cell as usize)
}

// Adds the code of an arc to the row of the cell that it comes from, in the area of working memory from `base` on.
// kept: the area by its first strip, as in `settling::work`.
fn add_arc<S: Strip>(work: &mut Work<S>, base: usize, plan: &Plan, from: u8, to: u8, c: u8)
    requires room { base + plan.now.places.cells < 512 }
    ensures row { AddedIn S.Codes.Scale.model S.len (Rows S.code work.old base) (spots plan.now from) (spots plan.now to) c (Rows S.code work.new base) }
    ensures outside { Outside S.code work.old base (plan.now.places.cells + 1) work.new }
{
    let h = cell_place(plan, from);
    let place = cell_place(plan, to);
    add_in(work, base, h, place, c);
}

// Adds what a record says to the rows of the draft, and to its outlet.
fn add_record<S: Strip>(work: &mut Work<S>, plan: &Plan, entry: Record, out: &mut S)
    requires coded { code_of_record (meant entry) < S.Codes.Scale.model.q }
    requires sound { Sound S.code S.len work.old (draft_of plan.now out.old) }
    ensures sound { Sound S.code S.len work.new (draft_of plan.now out.new) }
    ensures entered { Entered S.Codes.Scale.model S.code (spots plan.now) (meant entry) work.old (S.code out.old) work.new (S.code out.new) }
{
    match entry {
        Record::Filler | Record::Cell(_) => {}
        Record::Off(from, to, c) => {
            add_arc(work, OFF, plan, from, to, c);
            add_arc(work, DIF, plan, from, to, S::Codes::negative(c));
        }
        Record::On(from, to, c) => add_arc(work, DIF, plan, from, to, c),
        Record::Outlet(to, c) => add_at(out, cell_place(plan, to), c),
    }
}

// Adds all records to blank rows, and answers the outlet.
fn add_records<S: Strip>(work: &mut Work<S>, plan: &Plan, patch: &Patch) -> S
    requires within { plan.now.places.cells < S.len }
    requires codes { patch.now.setup.codes ≡ S.Codes.Scale.model.q }
    requires bounded { Bounded S.code work.old plan.now.places.cells }
    requires blank { Blank S.code work.old plan.now.places.cells }
    ensures sound { Sound S.code S.len work.new (draft_of plan.now result) }
    ensures summed { Summed S.Codes.Scale.model S.code (spots plan.now) (records (seen patch.now)) (length (records (seen patch.now))) plan.now.places.cells work.new (S.code result) }
{
    let mut out = S::blank();
    let records = patch.records();
    for record in records {
        add_record(work, plan, record, &mut out);
    }
    out
}

// What a patch is read for, over strips of one kind.
pub fn setup<S: Strip>(order: &ScanOrder) -> Setup
    ensures order { result.order ≡ order.now }
    ensures places { result.places ≡ S.len }
    ensures codes { result.codes ≡ S.Codes.Scale.model.q }
{
    Setup {
        order: *order,
        places: S::length(),
        codes: S::Codes::codes(),
    }
}

// Lays the patch's diagram out.
fn draft_patch_work<S: Strip>(work: &mut Work<S>, patch: &Patch) -> Draft<S>
    requires places { patch.now.setup.places ≡ S.len }
    requires codes { patch.now.setup.codes ≡ S.Codes.Scale.model.q }
    ensures sound { Sound S.code S.len work.new result }
    ensures drafts { Drafts S.Codes.Scale.model S.code work.new result (length (listed patch.now.setup.order)) (patch_rule S.Codes.Scale.model patch.now.setup.order (seen patch.now)) }
{
    // kept: a list of fixed size of which as many count as there are cells, since the library uses no heap.
    let mut positions = [0; 128];
    let count = cell_positions(patch, &mut positions);
    let plan = place_cells(&positions[..count], patch.order().count());
    clear_work(work, plan.places.cells);
    let out = add_records(work, &plan, patch);
    Draft {
        places: plan.places,
        out,
    }
}

// Lays the patch's diagram out in the first 512 of the working strips.
pub fn draft_patch<S: Strip>(work: &mut [S], patch: &Patch) -> Draft<S>
    requires room { 512 ≤ length work.old }
    requires places { patch.now.setup.places ≡ S.len }
    requires codes { patch.now.setup.codes ≡ S.Codes.Scale.model.q }
    ensures sound { Sound S.code S.len work.new result }
    ensures drafts { Drafts S.Codes.Scale.model S.code work.new result (length (listed patch.now.setup.order)) (patch_rule S.Codes.Scale.model patch.now.setup.order (seen patch.now)) }
    ensures beyond { Beyond S.code work.old work.new }
{
    let work = over(work);
    let draft = draft_patch_work(work, patch);
    still_whole(work);
    draft
}
