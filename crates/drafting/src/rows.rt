// Rows of a draft: one code added at a place, and a form's row moved to the places of a plan.
ghost use Rattle.std.specs.Prelude.{◌≡◌, ℕ, ◌+◌, ◌<◌, ◌≤◌, length};
ghost use Rattle.drafting.specs.Drafts.{AddedAt, AddedIn, Blank, Ends};
ghost use Rattle.drafting.specs.Forms.{place_of, Moved};
ghost use Rattle.elimination.specs.Rows.{Rows, Outside};
ghost use Rattle.settling.specs.Draft.{Beyond, Bounded};

use crate::form::FormView;
use crate::part::Part;
use elimination::rows::{row, store};
use scale::Scale;
use settling::draft::{DIF, OFF};
use settling::work::{Work, over, wipe};
use strip::Strip;

// Adds c to the code at a place.
pub fn add_at<S: Strip>(row: &mut S, place: usize, c: u8)
    ensures { AddedAt S.Codes.Scale.model S.len (S.code row.old) place c (S.code row.new) }
{
    row.put(place, S::Codes::sum(row.ask(place), c));
}

// Adds c to the code at a place of the row h, in the area of working memory from `base` on.
// kept: the area by its first strip, as in `settling::work`.
pub fn add_in<S: Strip>(work: &mut [S], base: usize, h: usize, place: usize, c: u8)
    requires room { base + h < length work.old }
    ensures row { AddedIn S.Codes.Scale.model S.len (Rows S.code work.old base) h place c (Rows S.code work.new base) }
    ensures outside { (n : ℕ) → h < n → Outside S.code work.old base n work.new }
{
    let mut v = row(work, base + h);
    add_at(&mut v, place, c);
    store(work, base + h, v);
}

// A row over the places of a form, over those that a part of a plan gives to its cells.
pub fn moved<S: Strip>(row: &S, part: &Part) -> S
    ensures ends { Ends part.now.steady (S.code result) }
    ensures row { part.now.steady < S.len → Moved S.Codes.Scale.model (length part.now.places.now) (place_of part.now) (S.code row.now) (S.code result) }
{
    let mut v = S::blank();
    // kept: t is a place of the form, and no slice lists what a row holds
    for t in 0..part.cells() + 1 {
        add_at(&mut v, part.place(t), row.ask(t));
    }
    v
}

// The row that a form has at its place t, or its outlet where t is 0, over the places of a part that has its cells.
pub fn moved_row<S: Strip>(form: &FormView<S>, t: usize, part: &Part) -> S
    requires cells { length part.now.places.now ≡ length form.now.inputs.now }
    requires within { t ≤ length form.now.inputs.now }
    ensures ends { Ends part.now.steady (S.code result) }
    ensures row { part.now.steady < S.len → Moved S.Codes.Scale.model (length form.now.inputs.now) (place_of part.now) (Rows S.code form.now.strips.now 0 t) (S.code result) }
{
    let strips = form.strips;
    moved(&strips[t], part)
}

// Makes the rows of a draft of m cells blank.
pub(crate) fn clear_work<S: Strip>(work: &mut Work<S>, m: usize)
    requires few { m ≤ 127 }
    ensures blank { Blank S.code work.new m }
    ensures bounded { Bounded S.code work.new m }
{
    wipe(work, OFF, m + 1);
    wipe(work, DIF, m + 1);
}

// The same in the first 512 of the strips lent.
pub fn clear_rows<S: Strip>(work: &mut [S], m: usize)
    requires room { 512 ≤ length work.old }
    requires few { m ≤ 127 }
    ensures blank { Blank S.code work.new m }
    ensures bounded { Bounded S.code work.new m }
    ensures beyond { Beyond S.code work.old work.new }
{
    let work = over(work);
    clear_work(work, m);
    still_whole(work);
}

// Working memory has as many strips as before, whatever was written to it.
// kept: as in `settling::work`, for a proof that has passed the array to a call.
pub(crate) fn still_whole<S: Strip>(work: &Work<S>)
    ensures { length work.now ≡ 512 }
{}
