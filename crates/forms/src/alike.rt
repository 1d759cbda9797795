// Whether two forms that stand in strips are the same.
ghost use Rattle.std.specs.Prelude.{◌≡◌, ℕ, T, length, min};
ghost use Rattle.forms.specs.Alike.{RowsAlike};

use strip::Strip;

// Whether two forms have as many cells, and these read the same inputs.
pub fn same_inputs(a: &[u8], b: &[u8]) -> bool
    ensures same { T result → a.now ≡ b.now }
    ensures all { a.now ≡ b.now → T result }
{
    a == b
}

// Whether the strips of two slots are equal, as far as both go.
pub fn same_strips<S: Strip>(a: &[S], b: &[S]) -> bool
    ensures same { T result → RowsAlike S.code a.now b.now (min (length a.now) (length b.now)) }
    ensures all { RowsAlike S.code a.now b.now (min (length a.now) (length b.now)) → T result }
{
    a.iter().zip(b).all(|(x, y)| x.equal(y))
}
