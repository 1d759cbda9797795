// The reduced form of a table, and of any rows: each pivot 1, and alone in its column.
ghost use Rattle.std.specs.Prelude.{◌≡◌, ℕ, ◌+◌, ◌<◌, ◌≤◌, length};
ghost use Rattle.strip.specs.Row.{zeros};
ghost use Rattle.elimination.specs.Arithmetic.{arithmetic};
ghost use Rattle.elimination.specs.Rows.{rows_in, RowSet, scaled, Swept, Echelon, Tidy, SameSpan, SpansAs};

use super::reducing::insert;
use super::rows::{add_times, clear, pivot};
use scale::Scale;
use strip::Strip;

// Divides the row at h by what it holds there.
fn unit_head<S: Strip>(table: &mut [S], h: usize)
    requires room { h < length table.old }
    ensures { RowSet (rows_in S.code table.old) h (scaled (arithmetic S.Codes.Scale.model) ((arithmetic S.Codes.Scale.model).inv (rows_in S.code table.old h h)) (rows_in S.code table.old h)) (rows_in S.code table.new) }
{
    let row = table[h];
    let mut unit = S::blank();
    add_times(&mut unit, S::Codes::inverse(row.ask(h)), &row);
    table[h] = unit;
}

// Clears the place h in the rows above the row at h.
fn clear_column<S: Strip>(table: &mut [S], h: usize)
    requires room { h < length table.old }
    ensures { Swept (arithmetic S.Codes.Scale.model) h h (rows_in S.code table.old) (rows_in S.code table.new) }
{
    let (above, rest) = table.split_at_mut(h);
    let row = &rest[0];
    for v in above.iter_mut() {
        clear(v, row, h);
    }
}

// One place more of the reduced form.
fn unit_column<S: Strip>(table: &mut [S], h: usize)
    requires below { h < length table.old }
    requires shape { Echelon (length table.old) (rows_in S.code table.old) }
    requires tidy { Tidy h (length table.old) (rows_in S.code table.old) }
    ensures shape { Echelon (length table.new) (rows_in S.code table.new) }
    ensures tidy { Tidy (h + 1) (length table.new) (rows_in S.code table.new) }
    ensures span { SameSpan (arithmetic S.Codes.Scale.model) (length table.old) (rows_in S.code table.old) (rows_in S.code table.new) }
{
    if pivot(table, h) != 0 {
        unit_head(table, h);
        clear_column(table, h);
    }
}

// The reduced form: each pivot 1, and alone in its column. The table stays sorted by pivot, being indexed by it.
pub fn tidy<S: Strip>(table: &mut [S])
    requires shape { Echelon (length table.old) (rows_in S.code table.old) }
    ensures shape { Echelon (length table.new) (rows_in S.code table.new) }
    ensures tidy { Tidy (length table.new) (length table.new) (rows_in S.code table.new) }
    ensures span { SameSpan (arithmetic S.Codes.Scale.model) (length table.old) (rows_in S.code table.old) (rows_in S.code table.new) }
{
    // kept: h is a place as well as a row, and each step writes to the rows above its own, so that an iterator can't hold them.
    for h in 0..table.len() {
        unit_column(table, h);
    }
}

// Makes a table with no rows.
pub fn wipe<S: Strip>(table: &mut [S])
    ensures blank { (h : ℕ) → h < length table.new → rows_in S.code table.new h ≡ zeros }
{
    // kept: tried as `fill`, which asks for a clone that cannot fail, and the trait Strip does not say that of one
    for row in table.iter_mut() {
        *row = S::blank();
    }
}

// Puts the rows of the source into a table with no rows.
fn fill<S: Strip>(table: &mut [S], source: &[S])
    requires within { length table.old ≤ S.len }
    requires blank { (h : ℕ) → h < length table.old → rows_in S.code table.old h ≡ zeros }
    requires below { (i p : ℕ) → i < length source.now → length table.old ≤ p → rows_in S.code source.now i p ≡ 0 }
    ensures shape { Echelon (length table.new) (rows_in S.code table.new) }
    ensures span { SpansAs (arithmetic S.Codes.Scale.model) (length source.now) (rows_in S.code source.now) (length table.new) (rows_in S.code table.new) }
{
    for &v in source {
        insert(table, v);
    }
}

// Makes a table of what the rows of the source span, in reduced form.
pub fn reduced_form<S: Strip>(table: &mut [S], source: &[S])
    requires within { length table.old ≤ S.len }
    requires below { (i p : ℕ) → i < length source.now → length table.old ≤ p → rows_in S.code source.now i p ≡ 0 }
    ensures shape { Echelon (length table.new) (rows_in S.code table.new) }
    ensures tidy { Tidy (length table.new) (length table.new) (rows_in S.code table.new) }
    ensures span { SpansAs (arithmetic S.Codes.Scale.model) (length source.now) (rows_in S.code source.now) (length table.new) (rows_in S.code table.new) }
{
    wipe(table);
    fill(table, source);
    tidy(table);
}
