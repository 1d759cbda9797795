// Reducing a row by a table, which is indexed by pivot: its row at h has its first filled place at h, or is blank.
ghost use Rattle.std.specs.Prelude.{◌≡◌, ℕ, ◌<◌, ◌≤◌, length};
ghost use Rattle.strip.specs.Row.{First};
ghost use Rattle.elimination.specs.Arithmetic.{arithmetic};
ghost use Rattle.elimination.specs.Lift.{vec, elements, scalars, Inside, Absorbed};
ghost use Rattle.elimination.specs.Rows.{rows_in, Echelon, Balance, Reduced, Grows};

use super::rows::{clear, first_in, pivot, store};
use strip::Strip;

// kept: what is asked of a table stands in each contract, here and in reduced_form.rt: a struct over the lent slice was tried, for working memory, and callers then learnt nothing of the slice.
// Takes from v what the rows of the table have at its first filled places; answers the factors used.
pub fn reduce_with<S: Strip>(table: &[S], v: &mut S) -> S
    requires within { length table.now ≤ S.len }
    requires shape { Echelon (length table.now) (rows_in S.code table.now) }
    ensures left { Reduced (length table.now) (rows_in S.code table.now) (S.code v.new) }
    ensures balance { Balance (arithmetic S.Codes.Scale.model) (length table.now) (S.code result) (rows_in S.code table.now) (S.code v.old) (S.code v.new) }
    ensures sparse { (j : ℕ) → j < length table.now → rows_in S.code table.now j j ≡ 0 → S.code result j ≡ 0 }
    ensures past { (p : ℕ) → length table.now ≤ p → S.code result p ≡ 0 }
    ensures later { (h p : ℕ) → First (length table.now) (S.code v.new) h → h ≤ p → S.code result p ≡ 0 }
    ensures early { (k : ℕ) → k ≤ length table.now → ((p : ℕ) → p < k → S.code v.old p ≡ 0) → (p : ℕ) → p < k → (S.code result p ≡ 0) × (S.code v.new p ≡ 0) }
{
    let mut coef = S::blank();
    let mut h = first_in(v, table.len());
    // kept: h is a place of v as well as a row of the table, and leaps from one filled place of v to the next.
    while h < table.len() && pivot(table, h) != 0 {
        let factor = clear(v, &table[h], h);
        coef.put(h, factor);
        h = first_in(v, table.len());
    }
    coef
}

// Puts v into the table, as what is left of it when the rows are taken out; answers its coefficients over the rows
// that the table has then.
pub fn absorb<S: Strip>(table: &mut [S], v: S) -> S
    requires within { length table.old ≤ S.len }
    requires shape { Echelon (length table.old) (rows_in S.code table.old) }
    requires inside { Inside (length table.old) (rows_in S.code table.old) }
    requires below { (p : ℕ) → length table.old ≤ p → S.code v p ≡ 0 }
    ensures shape { Echelon (length table.new) (rows_in S.code table.new) }
    ensures inside { Inside (length table.new) (rows_in S.code table.new) }
    ensures grows { Grows (arithmetic S.Codes.Scale.model) (length table.old) (rows_in S.code table.old) (S.code v) (rows_in S.code table.new) }
    ensures absorbed { Absorbed (scalars S.Codes.Scale.model) (length table.old) (elements S.Codes.Scale.model (rows_in S.code table.old)) (vec S.Codes.Scale.model (S.code v)) (vec S.Codes.Scale.model (S.code result)) (elements S.Codes.Scale.model (rows_in S.code table.new)) }
{
    let mut rest = v;
    let mut coef = reduce_with(table, &mut rest);
    let h = first_in(&rest, table.len());
    if h < table.len() {
        store(table, h, rest);
        coef.put(h, 1);
    }
    coef
}

// Adds v to the table, unless its rows span v already.
pub fn insert<S: Strip>(table: &mut [S], v: S)
    requires within { length table.old ≤ S.len }
    requires shape { Echelon (length table.old) (rows_in S.code table.old) }
    requires inside { Inside (length table.old) (rows_in S.code table.old) }
    requires below { (p : ℕ) → length table.old ≤ p → S.code v p ≡ 0 }
    ensures shape { Echelon (length table.new) (rows_in S.code table.new) }
    ensures inside { Inside (length table.new) (rows_in S.code table.new) }
    ensures grows { Grows (arithmetic S.Codes.Scale.model) (length table.old) (rows_in S.code table.old) (S.code v) (rows_in S.code table.new) }
{
    let _ = absorb(table, v);
}
