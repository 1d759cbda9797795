// The code of a form at a setting.
ghost use Rattle.std.specs.Prelude.{◌≡◌, ℕ, ◌+◌, ◌<◌, ◌≤◌, length};
ghost use Rattle.elimination.specs.Lift.{up};
ghost use Rattle.elimination.specs.Rows.{Rows};
ghost use Rattle.patch.specs.Paths.{bit};
ghost use Rattle.forms.specs.Sounding.{weighed_up, Valued, Sounds};

use drafting::FormView;
use scale::Scale;
use strip::Strip;

// The sum, over the places that have a value, of what the row holds there times the value.
fn weighted<S: Strip>(row: &S, values: &[u8]) -> u8
    ensures code { result < S.Codes.Scale.model.q }
    ensures value { up S.Codes.Scale.model result ≡ weighed_up S.Codes.Scale.model (S.code row.now) (length values.now) values.now }
{
    let mut sum = 0;
    for (t, value) in values.iter().enumerate() {
        sum = S::Codes::sum(sum, S::Codes::product(row.ask(t), *value));
    }
    sum
}

// Whether an input is 1 at a setting.
fn reads_one(setting: u64, input: u8) -> bool
    ensures { result ≡ bit setting input }
{
    input < 64 && (setting >> input) & 1 == 1
}

// The values of the cells, from number 1 up: a cell has no off arcs, so it is worth 0 where its input is 0.
fn cell_values<S: Strip>(form: &FormView<S>, setting: u64) -> [u8; 32]
    ensures { Valued S.Codes.Scale.model (Rows S.code form.now.strips.now 0) (length form.now.inputs.now) form.now.inputs.now setting result }
{
    let strips = form.strips;
    // kept: a list of fixed size of which as many count as there are places, since the library uses no heap; by k, since each value is made of those before it.
    let mut values = [0; 32];
    values[0] = 1;
    for (k, (row, input)) in strips[1..].iter().zip(form.inputs).enumerate() {
        if reads_one(setting, *input) {
            values[k + 1] = weighted(row, &values[..k + 1]);
        }
    }
    values
}

// The code of the form's rule at a setting.
pub fn code_at<S: Strip>(form: &FormView<S>, setting: u64) -> u8
    ensures code { result < S.Codes.Scale.model.q }
    ensures sounds { Sounds S.Codes.Scale.model S.code form.now.strips.now 0 (length form.now.inputs.now) form.now.inputs.now setting result }
{
    let strips = form.strips;
    let values = cell_values(form, setting);
    weighted(&strips[0], &values[..form.inputs.len() + 1])
}
