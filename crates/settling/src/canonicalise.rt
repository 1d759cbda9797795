// Backward: the cells of each position, from the last to the first, are the reduced form of what its places gain.
ghost use Rattle.std.specs.Prelude.{◌≡◌, ℕ, ◌+◌, ◌<◌, ◌≤◌, MatchOption, ◌≢◌, length, slice_index};
ghost use Rattle.strip.specs.Row.{zeros};
ghost use Rattle.elimination.specs.Rows.{Rows};
ghost use Rattle.settling.specs.Backing.{Pictured, Images, Marked, Added, rows, Numbered, Cellular, ExceedsAt, StepsTo};
ghost use Rattle.settling.specs.Draft.{Beyond, Span};
ghost use Rattle.settling.specs.Settling.{DerivesDraft, rule_of, positions, Settled};

use super::draft::{CAN, DIF, Draft, Form, FormPlaces, IMG, OFF, Places, Run, TAB, TooMany};
use super::work::{Work, gather, over, pivot, reduced_form, row, still_whole, store};
use strip::Strip;

// The image and the gain of a place, over the images of the places from e on.
// kept: a blank strip and a gathering, twice here and once for the outlet: a function for the two lines would have a contract longer than they are.
fn image_place<S: Strip>(work: &mut Work<S>, m: usize, e: usize, h: usize)
    requires order { h < e }
    requires ends { e ≤ m }
    requires within { m < S.len }
    ensures is { Pictured S.Codes.Scale.model S.code work.old work.new m e h }
    ensures img { (k : ℕ) → (k ≢ h) → Rows S.code work.new 384 k ≡ Rows S.code work.old 384 k }
    ensures dif { (k : ℕ) → (k ≢ h) → k < 128 → Rows S.code work.new 128 k ≡ Rows S.code work.old 128 k }
    ensures off { (k : ℕ) → k < 128 → Rows S.code work.new 0 k ≡ Rows S.code work.old 0 k }
    ensures tab { (b k : ℕ) → 256 ≤ b + k → b + k < 384 → Rows S.code work.new b k ≡ Rows S.code work.old b k }
{
    let off = row(work, OFF, h);
    let mut rest = S::blank();
    gather(work, IMG, &off, e, m + 1, &mut rest);
    let dif = row(work, DIF, h);
    let mut gain = S::blank();
    gather(work, IMG, &dif, e, m + 1, &mut gain);
    store(work, IMG, h, rest);
    store(work, DIF, h, gain);
}

// The images and gains of the places of one position.
fn image_block<S: Strip>(work: &mut Work<S>, m: usize, run: Run)
    requires ends { run.end ≤ m }
    requires within { m < S.len }
    ensures { Images S.Codes.Scale.model S.code work.old work.new m run.start run.end run.end }
{
    // kept: the number of a place names its rows in three areas, and its image is made of those of later places
    for h in run.start..run.end {
        image_place(work, m, run.end, h);
    }
}

// Notes the new cell j in the images of a position: what the gains hold at its head k.
fn mark<S: Strip>(work: &mut Work<S>, run: Run, k: usize, j: usize)
    requires within { run.end ≤ S.len }
    requires small { j < 32 }
    ensures { Marked S.code work.old work.new run.start run.end k j }
{
    // kept: a zip of the two areas, split by split_at_mut, was tried: once it is over, a proof knows nothing of what it wrote
    for h in run.start..run.end {
        let gain = row(work, DIF, h);
        let mut image = row(work, IMG, h);
        image.put(j, gain.ask(k));
        store(work, IMG, h, image);
    }
}

// The row at k of the table becomes the cell j.
fn add_cell<S: Strip>(work: &mut Work<S>, run: Run, k: usize, j: usize)
    requires within { run.end ≤ S.len }
    requires head { k < 32 }
    requires small { j < 32 }
    ensures { Added S.code work.old work.new run.start run.end k j }
{
    let t = row(work, TAB, k);
    store(work, CAN, j, t);
    mark(work, run, k, j);
}

// Makes the rows of the table the next cells, of position p, in the order of their heads; or answers nothing where the
// cells get too many.
// kept: an Option, here and up to `canonicalise`, since there is one cause, and that function names it.
fn number<S: Strip>(work: &mut Work<S>, found: &mut FormPlaces, p: u8, run: Run) -> Option<()>
    requires within { run.end ≤ S.len }
    ensures { MatchOption result (33 ≤ found.old.cells + 1 + rows (Rows S.code work.old 256) (found.old.cells + 1)) (λ _. Numbered S.code work.old found.old.pos work.new found.new.pos p run.start run.end (found.old.cells + 1) (found.old.cells + 1) (found.new.cells + 1)) }
{
    // kept: add_cell writes to working memory at each turn, so that no iterator can hold the table
    for k in 0..found.cells + 1 {
        if pivot(work, TAB, k) != 0 {
            let j = found.push(p)?;
            add_cell(work, run, k, j);
        }
    }
    Some(())
}

// One position: the images of its places, the table of their gains, and the cells that its rows become.
fn back_block<S: Strip>(
    work: &mut Work<S>,
    places: &Places,
    found: &mut FormPlaces,
    run: Run,
) -> Option<()>
    requires within { places.now.cells < S.len }
    requires ends { run.end ≤ places.now.cells }
    requires span { Span places.now.pos run.start run.end }
    requires edge { (v : ℕ) → v < run.end → slice_index places.now.pos v < slice_index places.now.pos run.end }
    requires cellular { Cellular S.code work.old places.now.cells (found.old.cells + 1) run.end }
    ensures { MatchOption result (ExceedsAt S.Codes.Scale.model S.code places.now work.old found.old run.end) (λ _. StepsTo S.Codes.Scale.model S.code places.now work.old found.old run.end work.new found.new run.start) }
{
    image_block(work, places.cells, run);
    reduced_form(
        work,
        TAB,
        found.cells + 1,
        DIF + run.start,
        run.end - run.start,
    );
    number(work, found, places.pos[run.start], run)
}

// The steady place alone: the first place of the canonical diagram, and its own image.
fn lay_steady<S: Strip>(work: &mut Work<S>, places: &Places) -> FormPlaces
    requires within { places.now.cells < S.len }
    ensures cells { result.cells ≡ 0 }
    ensures position { slice_index result.pos 0 ≡ slice_index places.now.pos places.now.cells }
    ensures cell { Rows S.code work.new 288 0 ≡ zeros }
    ensures one { Rows S.code work.new 384 places.now.cells 0 ≡ 1 }
    ensures none { (p : ℕ) → 1 ≤ p → Rows S.code work.new 384 places.now.cells p ≡ 0 }
    ensures before { (b i : ℕ) → b + i < 256 → Rows S.code work.new b i ≡ Rows S.code work.old b i }
{
    let m = places.cells;
    store(work, CAN, 0, S::blank());
    let mut unit = S::blank();
    unit.put(0, 1);
    store(work, IMG, m, unit);
    FormPlaces::steady(places.pos[m])
}

// All positions, from the last to the first.
fn back_all<S: Strip>(work: &mut Work<S>, places: &Places, found: &mut FormPlaces) -> Option<()>
    requires within { places.now.cells < S.len }
    requires cellular { Cellular S.code work.old places.now.cells (found.old.cells + 1) places.now.cells }
    ensures { MatchOption result (ExceedsAt S.Codes.Scale.model S.code places.now work.old found.old places.now.cells) (λ _. StepsTo S.Codes.Scale.model S.code places.now work.old found.old places.now.cells work.new found.new 0) }
{
    let mut e = places.cells;
    // kept: e goes back by whole positions, and each step wants where its position begins and ends.
    while e > 0 {
        let run = places.run_before(e);
        back_block(work, places, found, run)?;
        e = run.start;
    }
    Some(())
}

// The canonical diagram of the same rule, or none of at most 31 cells has it.
fn canonicalise_work<S: Strip>(work: &mut Work<S>, d: &Draft<S>) -> Result<Form<S>, TooMany>
    requires within { d.now.places.cells < S.len }
    ensures { DerivesDraft S.Codes.Scale.model S.code work.old d.now → Settled S.Codes.Scale.model S.code (positions d.now) (rule_of S.Codes.Scale.model S.code work.old d.now) work.new result }
{
    let places = &d.places;
    let mut found = lay_steady(work, places);
    back_all(work, places, &mut found).ok_or(TooMany)?;
    let mut o = S::blank();
    gather(work, IMG, &d.out, 0, places.cells + 1, &mut o);
    Ok(Form {
        places: found,
        out: o,
    })
}

// Backward: the canonical diagram of the same rule, or none of at most 31 cells has it, in the first 512 of the strips lent.
pub fn canonicalise<S: Strip>(work: &mut [S], d: &Draft<S>) -> Result<Form<S>, TooMany>
    requires room { 512 ≤ length work.old }
    requires within { d.now.places.cells < S.len }
    ensures settled { DerivesDraft S.Codes.Scale.model S.code work.old d.now → Settled S.Codes.Scale.model S.code (positions d.now) (rule_of S.Codes.Scale.model S.code work.old d.now) work.new result }
    ensures beyond { Beyond S.code work.old work.new }
{
    let work = over(work);
    let settled = canonicalise_work(work, d);
    still_whole(work);
    settled
}
