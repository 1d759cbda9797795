// The panel calls: load, lay, weigh, tie, same, cells, sound, write.
ghost use Rattle.std.specs.Prelude.{◌≡◌, ◌+◌, ◌*◌, ◌<◌, ◌≤◌, ◌↔◌, length, take, IfOk, IfErr, IsOk, HoldsAt, slice_range};
ghost use Rattle.patch.specs.declared.refusal.Refusal.TheVariants.{NoSlot, FewWorkingStrips};
ghost use Rattle.settling.specs.Settling.{Sound};

use super::{Rack, SLOT_STRIPS, SLOTS, STRIPS, Slot};
use drafting::{FormView, draft_patch, draft_sum, draft_tied, setup};
use forms::{
    ENCODED_ROOM, code_at, encode, keep_form, keep_silent, keep_weighed, same_inputs, same_strips,
};
use patch::{Patch, Refusal, examine};
use scale::Scale;
use settling::draft::Draft;
use settling::settle;
use strip::Strip;

// Whether there are strips enough to work in.
fn check_work<S>(work: &[S]) -> Result<(), Refusal>
    ensures enough { IsOk result ↔ (512 ≤ length work.now) }
    ensures refused { IfErr result (λ e. e ≡ FewWorkingStrips) }
{
    if work.len() < STRIPS {
        return Err(Refusal::FewWorkingStrips);
    }
    Ok(())
}

impl<'a, S: Strip> Rack<'a, S> {
    // Whether there is a slot s: over fewer strips than its slots need, a rack has none.
    fn check_slot(&self, s: usize) -> Result<(), Refusal>
        ensures there { IsOk result ↔ ((s < 16) × (512 ≤ length self.now.strips.now)) }
        ensures refused { IfErr result (λ e. e ≡ NoSlot) }
    {
        let strips = &*self.strips;
        if strips.len() < STRIPS || s >= SLOTS {
            return Err(Refusal::NoSlot);
        }
        Ok(())
    }

    // The form that stands in slot s.
    fn form(&self, s: usize) -> Result<FormView<S>, Refusal>
        ensures there { IsOk result ↔ ((s < 16) × (512 ≤ length self.now.strips.now)) }
        ensures refused { IfErr result (λ e. e ≡ NoSlot) }
        ensures strips { IfOk result (λ f. f.strips.now ≡ slice_range self.now.strips.now (32 * s) (32 * s + 32)) }
        ensures inputs { IfOk result (λ f. HoldsAt (λ slot. f.inputs.now ≡ take slot.count slot.inputs) self.now.desk.slots s) }
    {
        self.check_slot(s)?;
        let strips = &*self.strips;
        let first = SLOT_STRIPS * s;
        let slot = &self.desk.slots[s];
        Ok(FormView {
            strips: &strips[first..first + SLOT_STRIPS],
            inputs: slot.inputs(),
        })
    }

    // Settles a draft and keeps it in slot `to`, or refuses it for its cells.
    // kept: a slot's part of the strips is cut here, in `form` and in `weigh`: a function that lent it would need a clause on what comes back, which is longer than the cut.
    fn keep(&mut self, to: usize, work: &mut [S], draft: &mut Draft<S>) -> Result<(), Refusal>
        requires slot { to < 16 }
        requires room { 512 ≤ length work.old }
        requires strips { 512 ≤ length self.old.strips.now }
        requires sound { Sound S.code S.len work.old draft.old }
    {
        let form = settle(work, draft).map_err(|_| Refusal::TooManyCells)?;
        let strips = &mut *self.strips;
        let first = SLOT_STRIPS * to;
        keep_form(
            &mut strips[first..first + SLOT_STRIPS],
            work,
            &form.out,
            form.places.cells,
        );
        self.desk.slots[to].describe(&form, &self.desk.order);
        Ok(())
    }

    // Gives a slot the rule of a patch.
    pub fn load(&mut self, slot: usize, bytes: &[u8], work: &mut [S]) -> Result<(), Refusal> {
        self.check_slot(slot)?;
        check_work(work)?;
        let setup = setup::<S>(&self.desk.order);
        examine(bytes, &setup)?;
        let patch = Patch::admit(bytes, &setup);
        let mut draft = draft_patch(work, &patch);
        self.keep(slot, work, &mut draft)
    }

    // Gives slot `to` the sum of two rules.
    pub fn lay(&mut self, to: usize, a: usize, b: usize, work: &mut [S]) -> Result<(), Refusal> {
        self.check_slot(to)?;
        let x = self.form(a)?;
        let y = self.form(b)?;
        check_work(work)?;
        let mut draft = draft_sum(work, &self.desk.order, &x, 1, &y);
        self.keep(to, work, &mut draft)
    }

    // Gives slot `to` the code c times a rule.
    pub fn weigh(&mut self, to: usize, a: usize, c: u8) -> Result<(), Refusal> {
        self.check_slot(to)?;
        self.check_slot(a)?;
        if c >= S::Codes::codes() {
            return Err(Refusal::NoCode);
        }
        let strips = &mut *self.strips;
        let first = SLOT_STRIPS * to;
        if c == 0 {
            keep_silent(&mut strips[first..first + SLOT_STRIPS]);
            self.desk.slots[to] = Slot::silent();
        } else {
            keep_weighed(strips, first, SLOT_STRIPS * a, c);
            self.desk.slots[to] = self.desk.slots[a];
        }
        Ok(())
    }

    // Gives slot `to` a rule with one input read as v.
    pub fn tie(
        &mut self,
        to: usize,
        a: usize,
        input: u8,
        v: u8,
        work: &mut [S],
    ) -> Result<(), Refusal> {
        self.check_slot(to)?;
        let form = self.form(a)?;
        if input >= self.desk.order.count() || v > 1 {
            return Err(Refusal::TieRange);
        }
        check_work(work)?;
        let mut draft = draft_tied(work, &self.desk.order, &form, input, v == 1);
        self.keep(to, work, &mut draft)
    }

    // Whether two rules agree at every setting.
    pub fn same(&self, a: usize, b: usize) -> Result<bool, Refusal> {
        let x = self.form(a)?;
        let y = self.form(b)?;
        Ok(same_inputs(x.inputs, y.inputs) && same_strips(x.strips, y.strips))
    }

    // The number of cells of a slot's form.
    pub fn cells(&self, a: usize) -> Result<usize, Refusal> {
        Ok(self.form(a)?.inputs.len())
    }

    // The code of a rule at a setting, and its velocity.
    pub fn sound(&self, a: usize, setting: u64) -> Result<(u8, u8), Refusal> {
        let form = self.form(a)?;
        if setting >> self.desk.order.count() != 0 {
            return Err(Refusal::SettingRange);
        }
        let code = code_at(&form, setting);
        Ok((code, S::Codes::velocity(code)))
    }

    // Puts the settled bytes of a slot first in the output, and answers how many there are.
    pub fn write(&self, a: usize, out: &mut [u8]) -> Result<usize, Refusal>
        ensures { IfOk result (λ n. n ≤ length out.old) }
    {
        let form = self.form(a)?;
        // kept: an output of fixed size and its length, since the library uses no heap.
        let mut bytes = [0; ENCODED_ROOM];
        let n = encode(&form, &mut bytes);
        if out.len() < n {
            return Err(Refusal::ShortOutput);
        }
        out[..n].copy_from_slice(&bytes[..n]);
        Ok(n)
    }
}
