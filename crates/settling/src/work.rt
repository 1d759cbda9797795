// Working memory: four areas of 128 strips, and rows in it.
ghost use Rattle.std.specs.Prelude.{◌≡◌, ℕ, ◌+◌, ◌<◌, ◌≤◌, ◌++◌, length, drop, take};
ghost use Rattle.std.specs.Borrow.{Lends, sem, Array};
ghost use Rattle.strip.specs.Row.{zeros};
ghost use Rattle.elimination.specs.Arithmetic.{arithmetic};
ghost use Rattle.elimination.specs.Lift.{vec, scalars, Grid, Gathered, Inside, Absorbed};
ghost use Rattle.elimination.specs.Rows.{Rows, RowSet, Outside, Echelon, Tidy, SpansAs};

use elimination::{reduced_form, reducing, rows};
use strip::Strip;

// Working memory. It is lent as an array, so that its type says how many strips there are and that no others are reached.
pub type Work<S> = [S; 512];

// The first 512 of the strips lent, which must be no fewer.
pub fn over<S: Strip>(strips: &mut [S]) -> &mut Work<S>
    requires room { 512 ≤ length strips.old }
    ensures first { result.now ≡ take 512 strips.old }
    ensures* writes_back { sem 𝓛 (Lends (Array S.row 0) (Array S.row 0) strips.entry result (λ ws. ws ++ drop 512 strips.old)) }
{
    strips.first_chunk_mut::<512>().unwrap()
}

// Working memory has as many strips as before, whatever was written to it.
// kept: the type says so, but a proof that has passed an array to a call knows its length again only by a clause like this one.
pub(crate) fn still_whole<S: Strip>(work: &Work<S>)
    ensures { length work.now ≡ 512 }
{}

// The row at i of the area from `base` on.
// kept: an area is the number of its first strip, here and below, since areas are parts of one memory, and a step reads one while it writes another.
#[tactic(auto, using(elimination::proofs::Grids::rows_from))]
pub fn row<S: Strip>(work: &Work<S>, base: usize, i: usize) -> S
    requires room { base + i < 512 }
    ensures { S.code result ≡ Rows S.code work.now base i }
{
    rows::row(work, base + i)
}

// Puts v for the row at h.
pub fn store<S: Strip>(work: &mut Work<S>, base: usize, h: usize, v: S)
    requires room { base + h < 512 }
    ensures row { RowSet (Rows S.code work.old base) h (S.code v) (Rows S.code work.new base) }
    ensures outside { (n : ℕ) → h < n → Outside S.code work.old base n work.new }
{
    rows::store(work, base + h, v);
}

// Makes the first rows of the area blank.
pub fn wipe<S: Strip>(work: &mut Work<S>, base: usize, size: usize)
    requires room { base + size ≤ 512 }
    ensures blank { (h : ℕ) → h < size → Rows S.code work.new base h ≡ zeros }
    ensures outside { Outside S.code work.old base size work.new }
{
    let strips = &mut work[..];
    reduced_form::wipe(&mut strips[base..base + size]);
}

// What the row at h holds at h.
pub(crate) fn pivot<S: Strip>(work: &Work<S>, base: usize, h: usize) -> u8
    requires room { base + h < 512 }
    ensures { result ≡ Rows S.code work.now base h h }
{
    let strips = &work[..];
    rows::pivot(&strips[base..], h)
}

// sum += r[from] * row from + .. + r[to - 1] * row (to - 1)
pub(crate) fn gather<S: Strip>(
    work: &Work<S>,
    base: usize,
    r: &S,
    from: usize,
    to: usize,
    sum: &mut S,
)
    requires room { base + to ≤ 512 }
    requires order { from ≤ to }
    ensures { Gathered S.Codes.Scale.model (S.code r.now) (Grid S.Codes.Scale.model S.code work.now base) from to (S.code sum.old) (S.code sum.new) }
{
    let strips = &work[..];
    rows::gather(&strips[base..base + to], r, from, sum);
}

// Puts v into a table of rows by pivot; answers its coefficients over the rows that the table has then.
pub(crate) fn absorb<S: Strip>(work: &mut Work<S>, base: usize, size: usize, v: S) -> S
    requires room { base + size ≤ 512 }
    requires within { size ≤ S.len }
    requires shape { Echelon size (Rows S.code work.old base) }
    requires inside { Inside size (Rows S.code work.old base) }
    requires below { (p : ℕ) → size ≤ p → S.code v p ≡ 0 }
    ensures shape { Echelon size (Rows S.code work.new base) }
    ensures inside { Inside size (Rows S.code work.new base) }
    ensures outside { Outside S.code work.old base size work.new }
    ensures absorbed { Absorbed (scalars S.Codes.Scale.model) size (Grid S.Codes.Scale.model S.code work.old base) (vec S.Codes.Scale.model (S.code v)) (vec S.Codes.Scale.model (S.code result)) (Grid S.Codes.Scale.model S.code work.new base) }
{
    let strips = &mut work[..];
    reducing::absorb(&mut strips[base..base + size], v)
}

// Makes a table of what the `count` rows from the strip `from` on span, in reduced form.
pub(crate) fn reduced_form<S: Strip>(
    work: &mut Work<S>,
    base: usize,
    size: usize,
    from: usize,
    count: usize,
)
    requires room { base + size ≤ 512 }
    requires within { size ≤ S.len }
    requires source { from + count ≤ base }
    requires below { (i p : ℕ) → i < count → size ≤ p → Rows S.code work.old from i p ≡ 0 }
    ensures shape { Echelon size (Rows S.code work.new base) }
    ensures tidy { Tidy size size (Rows S.code work.new base) }
    ensures span { SpansAs (arithmetic S.Codes.Scale.model) count (Rows S.code work.old from) size (Rows S.code work.new base) }
    ensures outside { Outside S.code work.old base size work.new }
{
    let (before, table) = work.split_at_mut(base);
    reduced_form::reduced_form(&mut table[..size], &before[from..from + count]);
}
