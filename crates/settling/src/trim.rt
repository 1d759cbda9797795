// Forward: each place's row is split at its position and written over a table of rows, so that what is left is reached
// from the rule.
ghost use Rattle.std.specs.Prelude.{◌≡◌, ℕ, ◌+◌, ◌<◌, ◌≤◌, length};
ghost use Rattle.strip.specs.Row.{zeros};
ghost use Rattle.elimination.specs.Rows.{Rows, Outside};
ghost use Rattle.settling.specs.Draft.{Bounded, Beyond, Tables};
ghost use Rattle.settling.specs.Settling.{Sound, FormedDraft, TrimmedDraft};
ghost use Rattle.settling.specs.Trimming.{Rest, Gain, Advances};

use super::draft::{DIF, Draft, OFF, Places, ROW};
use super::work::{Work, absorb, gather, over, pivot, row, still_whole, store, wipe};
use elimination::rows::tail;
use strip::Strip;

// kept: bounds by S.len, h < e and `Tables` stand in contracts here and in canonicalise.rt: a type for the bounds would need S, and `Tables` speaks of working memory and places at once.

// What the row of h is where its position reads 0, over the places from e on.
fn rest_of<S: Strip>(work: &Work<S>, h: usize, e: usize) -> S
    requires order { h < e }
    requires within { e ≤ S.len }
    ensures { Rest S.Codes.Scale.model S.code work.now h e (S.code result) }
{
    let r = row(work, ROW, h);
    let mut o = tail(r, e);
    gather(work, OFF, &r, h, e, &mut o);
    o
}

// What the row of h gains where its position reads 1.
// kept: apart from `rest_of`, which starts from the tail of the row and gathers the other rows: one function would take both as parameters.
fn gain_of<S: Strip>(work: &Work<S>, h: usize, e: usize) -> S
    requires order { h < e }
    requires within { e ≤ S.len }
    ensures { Gain S.Codes.Scale.model S.code work.now h e (S.code result) }
{
    let r = row(work, ROW, h);
    let mut d = S::blank();
    gather(work, DIF, &r, h, e, &mut d);
    d
}

// The row of a place splits, and both parts go into the table.
fn split_place<S: Strip>(work: &mut Work<S>, places: &Places, h: usize)
    requires within { places.now.cells < S.len }
    requires below { h < places.now.cells }
    requires tables { Tables S.code work.old places.now.cells }
    ensures tables { Tables S.code work.new places.now.cells }
    ensures step { Advances S.Codes.Scale.model S.code places.now.pos places.now.cells work.old h work.new (h + 1) }
{
    let m = places.cells;
    let e = places.block_end(h);
    let o = rest_of(work, h, e);
    let d = gain_of(work, h, e);
    let oc = absorb(work, ROW, m + 1, o);
    let dc = absorb(work, ROW, m + 1, d);
    store(work, OFF, h, oc);
    store(work, DIF, h, dc);
}

// One place: its row splits, unless it is blank, since the place is not reached from the rule.
fn trim_place<S: Strip>(work: &mut Work<S>, places: &Places, h: usize)
    requires within { places.now.cells < S.len }
    requires below { h < places.now.cells }
    requires tables { Tables S.code work.old places.now.cells }
    ensures tables { Tables S.code work.new places.now.cells }
    ensures step { Advances S.Codes.Scale.model S.code places.now.pos places.now.cells work.old h work.new (h + 1) }
{
    if pivot(work, ROW, h) == 0 {
        store(work, OFF, h, S::blank());
        store(work, DIF, h, S::blank());
    } else {
        split_place(work, places, h);
    }
}

// All places, from the first to the last.
fn trim_places<S: Strip>(work: &mut Work<S>, places: &Places)
    requires within { places.now.cells < S.len }
    requires tables { Tables S.code work.old places.now.cells }
    ensures tables { Tables S.code work.new places.now.cells }
    ensures step { Advances S.Codes.Scale.model S.code places.now.pos places.now.cells work.old 0 work.new places.now.cells }
{
    // kept: the number of a place names its rows in three areas, which are read and written as it is trimmed
    for h in 0..places.cells {
        trim_place(work, places, h);
    }
}

// A table with the steady place's row alone.
fn steady_table<S: Strip>(work: &mut Work<S>, m: usize)
    requires within { m < S.len }
    requires bounded { Bounded S.code work.old m }
    ensures tables { Tables S.code work.new m }
    ensures one { Rows S.code work.new 256 m m ≡ 1 }
    ensures blank { (h : ℕ) → h < m → Rows S.code work.new 256 h ≡ zeros }
    ensures outside { Outside S.code work.old 256 (m + 1) work.new }
{
    wipe(work, ROW, m + 1);
    let mut unit = S::blank();
    unit.put(m, 1);
    store(work, ROW, m, unit);
}

// The same rule, by places that are reached from it.
fn trim_work<S: Strip>(work: &mut Work<S>, d: &mut Draft<S>)
    requires sound { Sound S.code S.len work.old d.old }
    ensures places { d.new.places ≡ d.old.places }
    ensures trimmed { FormedDraft S.Codes.Scale.model S.code work.old d.old → TrimmedDraft S.Codes.Scale.model S.code work.old d.old work.new d.new }
{
    let m = d.places.cells;
    steady_table(work, m);
    d.out = absorb(work, ROW, m + 1, d.out);
    trim_places(work, &d.places);
}

// Forward: the same rule, by places that are reached from it, in the first 512 of the strips lent.
pub fn trim<S: Strip>(work: &mut [S], d: &mut Draft<S>)
    requires room { 512 ≤ length work.old }
    requires sound { Sound S.code S.len work.old d.old }
    ensures places { d.new.places ≡ d.old.places }
    ensures trimmed { FormedDraft S.Codes.Scale.model S.code work.old d.old → TrimmedDraft S.Codes.Scale.model S.code work.old d.old work.new d.new }
    ensures beyond { Beyond S.code work.old work.new }
{
    let work = over(work);
    trim_work(work, d);
    still_whole(work);
}
