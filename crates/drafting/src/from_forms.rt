// Drafts from forms: the sum of one form and a multiple of another, and a form with one input tied.
ghost use Rattle.std.specs.Prelude.{◌≡◌, ℕ, ◌+◌, ◌<◌, ◌≤◌, ◌++◌, length, map, slice_index};
ghost use Rattle.drafting.specs.Arcs.{Positions};
ghost use Rattle.drafting.specs.Forms.{Copied, Free, Held};
ghost use Rattle.drafting.specs.Meaning.{DraftsSum, DraftsTied};
ghost use Rattle.drafting.specs.Plan.{PlacedBy};
ghost use Rattle.elimination.specs.Rows.{Outside};
ghost use Rattle.patch.specs.Faults.{position};
ghost use Rattle.patch.specs.Orders.{listed};
ghost use Rattle.settling.specs.Draft.{Beyond, Bounded};
ghost use Rattle.settling.specs.Settling.{Sound};

use crate::form::FormView;
use crate::part::Part;
use crate::plan::{Plan, place_cells};
use crate::rows::{clear_work, moved_row, still_whole};
use elimination::rows::add_times;
use patch::ScanOrder;
use settling::draft::{DIF, Draft, OFF};
use settling::work::{Work, over, store};
use strip::Strip;

// Lists the positions of a form's cells.
fn form_positions(inputs: &[u8], order: &ScanOrder, positions: &mut [u8])
    requires room { length inputs.now ≤ length positions.old }
    ensures listed { Positions (listed order.now) inputs.now positions.new }
    ensures kept { (i : ℕ) → length inputs.now ≤ i → slice_index positions.new i ≡ slice_index positions.old i }
{
    // kept: tried zip over positions.iter_mut(), after which nothing is known of what stands in positions
    for (j, input) in inputs.iter().enumerate() {
        positions[j] = order.position(*input);
    }
}

// Plans the draft of a form's cells, and behind them those of another.
fn plan_forms(first: &[u8], second: &[u8], order: &ScanOrder) -> Plan
    requires few { length first.now + length second.now ≤ 127 }
    ensures { PlacedBy (map (position (listed order.now)) (first.now ++ second.now)) (length first.now + length second.now) (length (listed order.now)) result.places result.place }
{
    let count = first.len() + second.len();
    // kept: a list of fixed size of which as many count as there are cells, since the library uses no heap.
    let mut positions = [0; 128];
    let (of_first, of_second) = positions.split_at_mut(first.len());
    form_positions(first, order, of_first);
    form_positions(second, order, of_second);
    place_cells(&positions[..count], order.count())
}

// Puts the rows of a form's cells at their places. An input may be tied: a cell that reads it has its row for good if it reads as 1, and none if it reads as 0.
fn copy_cells<S: Strip>(
    work: &mut Work<S>,
    part: &Part,
    form: &FormView<S>,
    tied: Option<(u8, bool)>,
)
    requires cells { length part.now.places.now ≡ length form.now.inputs.now }
    requires bounded { Bounded S.code work.old part.now.steady }
    ensures bounded { Bounded S.code work.new part.now.steady }
    ensures dif { Copied S.Codes.Scale.model S.code S.len part.now form.now 128 (Free form.now tied) (length form.now.inputs.now + 1) work.old work.new }
    ensures off { Copied S.Codes.Scale.model S.code S.len part.now form.now 0 (Held form.now tied) (length form.now.inputs.now + 1) work.old work.new }
    ensures outside { Outside S.code work.old 0 256 work.new }
{
    for (read, t) in form.inputs.iter().zip(1..) {
        let row = moved_row(form, t, part);
        let place = part.place(t);
        match tied {
            Some((input, on)) if *read == input => {
                if on {
                    store(work, OFF, place, row);
                }
            }
            _ => store(work, DIF, place, row),
        }
    }
}

// Lays out the diagram of a + c × b.
fn draft_sum_work<S: Strip>(
    work: &mut Work<S>,
    order: &ScanOrder,
    a: &FormView<S>,
    c: u8,
    b: &FormView<S>,
) -> Draft<S>
    ensures sound { Sound S.code S.len work.new result }
    ensures means { DraftsSum S.Codes.Scale.model S.code order.now a.now c b.now work.new result }
{
    let plan = plan_forms(a.inputs, b.inputs, order);
    clear_work(work, plan.places.cells);
    let of_a = plan.part(0, a.inputs.len());
    let of_b = plan.part(a.inputs.len(), b.inputs.len());
    copy_cells(work, &of_a, a, None);
    copy_cells(work, &of_b, b, None);
    let mut out = moved_row(a, 0, &of_a);
    let other = moved_row(b, 0, &of_b);
    add_times(&mut out, c, &other);
    Draft {
        places: plan.places,
        out,
    }
}

// Lays out the diagram of a + c × b in the first 512 of the strips lent.
pub fn draft_sum<S: Strip>(
    work: &mut [S],
    order: &ScanOrder,
    a: &FormView<S>,
    c: u8,
    b: &FormView<S>,
) -> Draft<S>
    requires room { 512 ≤ length work.old }
    ensures sound { Sound S.code S.len work.new result }
    ensures means { DraftsSum S.Codes.Scale.model S.code order.now a.now c b.now work.new result }
    ensures beyond { Beyond S.code work.old work.new }
{
    let work = over(work);
    let draft = draft_sum_work(work, order, a, c, b);
    still_whole(work);
    draft
}

// Lays out the diagram of a form in which an input always reads as 1, or as 0.
fn draft_tied_work<S: Strip>(
    work: &mut Work<S>,
    order: &ScanOrder,
    form: &FormView<S>,
    input: u8,
    on: bool,
) -> Draft<S>
    ensures sound { Sound S.code S.len work.new result }
    ensures means { DraftsTied S.Codes.Scale.model S.code order.now form.now input on work.new result }
{
    let plan = plan_forms(form.inputs, &[], order);
    clear_work(work, plan.places.cells);
    let part = plan.part(0, form.inputs.len());
    copy_cells(work, &part, form, Some((input, on)));
    let out = moved_row(form, 0, &part);
    Draft {
        places: plan.places,
        out,
    }
}

// Lays out the diagram of a form in which an input always reads as 1, or as 0, in the first 512 of the strips lent.
pub fn draft_tied<S: Strip>(
    work: &mut [S],
    order: &ScanOrder,
    form: &FormView<S>,
    input: u8,
    on: bool,
) -> Draft<S>
    requires room { 512 ≤ length work.old }
    ensures sound { Sound S.code S.len work.new result }
    ensures means { DraftsTied S.Codes.Scale.model S.code order.now form.now input on work.new result }
    ensures beyond { Beyond S.code work.old work.new }
{
    let work = over(work);
    let draft = draft_tied_work(work, order, form, input, on);
    still_whole(work);
    draft
}
