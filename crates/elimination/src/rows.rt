// Rows in strips: read, write and measure them, and add a multiple of one to another.
ghost use Rattle.std.specs.Prelude.{◌≡◌, ℕ, ◌<◌, ◌≤◌, length};
ghost use Rattle.strip.specs.Row.{First};
ghost use Rattle.elimination.specs.Arithmetic.{arithmetic};
ghost use Rattle.elimination.specs.Lift.{elements, Gathered};
ghost use Rattle.elimination.specs.Rows.{added, rows_in, RowSet, Cleared};

use scale::Scale;
use strip::Strip;

// The row at i.
#[tactic(auto, using(crate::proofs::Tables::row_read))]
pub fn row<S: Strip>(rows: &[S], i: usize) -> S
    requires room { i < length rows.now }
    ensures { S.code result ≡ rows_in S.code rows.now i }
{
    rows[i]
}

// Puts v for the row at h.
pub fn store<S: Strip>(rows: &mut [S], h: usize, v: S)
    requires room { h < length rows.old }
    ensures { RowSet (rows_in S.code rows.old) h (S.code v) (rows_in S.code rows.new) }
{
    rows[h] = v;
}

// What the row at h holds at h.
#[tactic(auto, using(crate::proofs::Tables::row_read))]
pub fn pivot<S: Strip>(table: &[S], h: usize) -> u8
    requires room { h < length table.now }
    ensures { result ≡ rows_in S.code table.now h h }
{
    table[h].ask(h)
}

// The first filled place below size, or size.
// kept: size for none and no Option, as `First` says it of a strip: callers compare the place with the table's length.
pub fn first_in<S: Strip>(v: &S, size: usize) -> usize
    requires within { size ≤ S.len }
    ensures { First size (S.code v.now) result }
{
    let h = v.first();
    if h < size { h } else { size }
}

// r without what it holds below e
pub fn tail<S: Strip>(r: S, e: usize) -> S
    requires within { e ≤ S.len }
    ensures low { (p : ℕ) → p < e → S.code result p ≡ 0 }
    ensures high { (p : ℕ) → e ≤ p → S.code result p ≡ S.code r p }
{
    let mut s = r;
    let mut p = s.first();
    // kept: p leaps from one filled place to the next.
    while p < e {
        s.put(p, 0);
        p = s.first();
    }
    s
}

// v := v + c * t
pub fn add_times<S: Strip>(v: &mut S, c: u8, t: &S)
    ensures { S.code v.new ≡ added (arithmetic S.Codes.Scale.model) (S.code v.old) c (S.code t.now) }
{
    v.add(c, t);
}

// v := v - (v[h] / row[h]) * row; answers the factor.
pub fn clear<S: Strip>(v: &mut S, row: &S, h: usize) -> u8
    ensures { Cleared (arithmetic S.Codes.Scale.model) (S.code v.old) (S.code row.now) h result (S.code v.new) }
{
    let factor = S::Codes::product(v.ask(h), S::Codes::inverse(row.ask(h)));
    add_times(v, S::Codes::negative(factor), row);
    factor
}

// sum += r[from] * rows[from] + .. + r[n - 1] * rows[n - 1], for n rows
pub fn gather<S: Strip>(rows: &[S], r: &S, from: usize, sum: &mut S)
    ensures { Gathered S.Codes.Scale.model (S.code r.now) (elements S.Codes.Scale.model (rows_in S.code rows.now)) from (length rows.now) (S.code sum.old) (S.code sum.new) }
{
    if let Some(rest) = rows.get(from..) {
        for (i, row) in rest.iter().enumerate() {
            let c = r.ask(from + i);
            if c != 0 {
                add_times(sum, c, row);
            }
        }
    }
}
