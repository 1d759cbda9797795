// The listing of a patch and the line of a refusal, as text.
ghost use Rattle.std.specs.Prelude.{◌≡◌, ℕ, ◌+◌, ◌^◌, ◌<◌, ◌≤◌, List};
ghost use Rattle.patch.specs.Judging.{meant};
ghost use Rattle.patch.specs.Listing.{arc, line, listing_text, refusal_text, Printed};
ghost use Rattle.patch.specs.Output.{Put, Puts};
ghost use Rattle.patch.specs.Records.{records};
ghost use Rattle.patch.specs.Windows.{seen};

use crate::record::Record;
use crate::refusal::Refusal;
use crate::text::Output;
use crate::window::Patch;

impl Output<'_> {
    // The line of an arc, after its word.
    fn arc(&mut self, from: u8, to: u8, code: u8)
        requires { self.old.at < 2 ^ 41 }
        ensures puts { Puts self.old (arc from to code) self.new }
        ensures near { self.new.at ≤ self.old.at + 64 }
    {
        self.field(from as usize);
        self.field(to as usize);
        self.field(code as usize);
        self.text(b"\n");
    }

    // The line of a record; `cells` cells are declared up to it and with it.
    fn line(&mut self, record: Record, cells: usize)
        requires { self.old.at < 2 ^ 40 }
        ensures puts { Puts self.old (line cells (meant «record»)) self.new }
        ensures near { self.new.at ≤ self.old.at + 100 }
    {
        match record {
            Record::Filler => {}
            Record::Cell(input) => {
                self.text(b"cell");
                self.field(cells);
                self.text(b" input");
                self.field(input as usize);
                self.text(b"\n");
            }
            Record::Off(from, to, code) => {
                self.text(b"off");
                self.arc(from, to, code);
            }
            Record::On(from, to, code) => {
                self.text(b"on");
                self.arc(from, to, code);
            }
            Record::Outlet(to, code) => {
                self.text(b"out");
                self.field(to as usize);
                self.field(code as usize);
                self.text(b"\n");
            }
        }
    }
}

// What is put first in an output, as text.
trait Text {
    ghost text: { Self → List ℕ };

    fn put(&self, output: &mut Output<'_>)
        requires { output.old.at ≡ 0 }
        ensures puts { Puts output.old (text self.now) output.new };
}

// The lines of all records, or `silent`.
impl Text for Patch<'_> {
    ghost text = { λ p. listing_text (records (seen p)) };

    fn put(&self, output: &mut Output<'_>) {
        let mut cells = 0;
        for record in self.records() {
            if let Record::Cell(_) = record {
                cells += 1;
            }
            output.line(record, cells);
        }
        if output.at == 0 {
            output.text(b"silent\n");
        }
    }
}

impl Text for Refusal {
    ghost text = { refusal_text };

    fn put(&self, output: &mut Output<'_>) {
        output.text(b"refused");
        output.field(self.number() as usize);
        output.field(self.place());
        output.text(b"\n");
    }
}

// Puts a text into an output, as far as that reaches, and answers the text's length.
fn put<T: Text>(text: &T, out: &mut [u8]) -> usize
    ensures { Put out.old 0 (T.text text.now) out.new result }
{
    let mut output = Output { out, at: 0 };
    text.put(&mut output);
    output.at
}

fn print<T: Text>(text: &T, out: &mut [u8]) -> Result<usize, Refusal>
    ensures { Printed (T.text text.now) out.old result out.new }
{
    // an output of no bytes only measures
    let length = put(text, &mut []);
    if out.len() < length {
        return Err(Refusal::ShortOutput);
    }
    Ok(put(text, out))
}

// Puts the listing first in the output and answers its length; refuses an output that is shorter, and then writes nothing.
pub fn listing(patch: &Patch, out: &mut [u8]) -> Result<usize, Refusal>
    ensures { Printed (listing_text (records (seen patch.now))) out.old result out.new }
{
    print(patch, out)
}

// The same for the line of a refusal.
pub fn refusal_line(refusal: &Refusal, out: &mut [u8]) -> Result<usize, Refusal>
    ensures { Printed (refusal_text refusal.now) out.old result out.new }
{
    print(refusal, out)
}
