// Keeping a form in the strips of a slot.
ghost use Rattle.std.specs.Prelude.{ℕ, ◌+◌, ◌≤◌, length};
ghost use Rattle.elimination.specs.Rows.{Rows};
ghost use Rattle.forms.specs.Keeping.{Filled, form_rows, weighed_rows, silent_rows};

use elimination::reduced_form::wipe;
use settling::draft::CAN;
use strip::Strip;

// Puts a settled form, by its outlet and by how many cells it has in the working strips, into the 32 strips of a slot.
// A slot has room for 31 cells: of more, the first 31 are kept. Strips without a cell become blank.
pub fn keep_form<S: Strip>(slot: &mut [S], work: &[S], outlet: &S, cells: usize)
    requires slot { 32 ≤ length slot.old }
    requires room { 512 ≤ length work.now }
    ensures { Filled S.code slot.old 0 (form_rows (S.code outlet.now) cells (Rows S.code work.now 288)) slot.new }
{
    let most = cells.min(31);
    slot[0] = *outlet;
    slot[1..most + 1].copy_from_slice(&work[CAN + 1..CAN + 1 + most]);
    wipe(&mut slot[most + 1..32]);
}

// Makes the 32 strips from `to` on those from `from` on, with c times the outlet.
// kept: two slots by their first strips and not as two slices, since they may be the same slot.
pub fn keep_weighed<S: Strip>(strips: &mut [S], to: usize, from: usize, c: u8)
    requires target { to + 32 ≤ length strips.old }
    requires source { from + 32 ≤ length strips.old }
    ensures { Filled S.code strips.old to (weighed_rows S.Codes.Scale.model c (Rows S.code strips.old from)) strips.new }
{
    strips.copy_within(from..from + 32, to);
    let mut outlet = S::blank();
    outlet.add(c, &strips[to]);
    strips[to] = outlet;
}

// Makes the 32 strips of a slot blank.
pub fn keep_silent<S: Strip>(slot: &mut [S])
    requires slot { 32 ≤ length slot.old }
    ensures { Filled S.code slot.old 0 silent_rows slot.new }
{
    wipe(&mut slot[..32]);
}
