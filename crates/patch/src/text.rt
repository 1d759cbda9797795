// Text put into an output, as far as the output reaches.
ghost use Rattle.std.specs.Prelude.{◌≡◌, ◌+◌, ◌^◌, ◌<◌, ◌≤◌, length, decimal};
ghost use Rattle.patch.specs.Output.{Puts, field};

// An output, and where in it the next text begins. Text that does not fit is lost, but the place goes on.
// kept: a place beside the slice, since it goes on past the slice's end; and `writeln!` into this as an `fmt::Write` was tried: its text is promised only where it answers Ok, nothing says that it does, and the exact answer of `listing` stayed open.
#[derive(Drop)]
pub struct Output<'a> {
    pub out: &'a mut [u8],
    pub at: usize,
}

impl Output<'_> {
    pub fn text(&mut self, text: &[u8])
        requires { (self.old.at < 2 ^ 62) × (length text.now < 2 ^ 62) }
        ensures puts { Puts self.old text.now self.new }
    {
        // kept: byte by byte, since most texts are a space, a newline or a digit, and to cut and copy slices takes more steps at each.
        let mut end = self.at;
        for b in text {
            if end < self.out.len() {
                self.out[end] = *b;
            }
            end += 1;
        }
        self.at = end;
    }

    // A number in decimal.
    pub fn number(&mut self, n: usize)
        requires { self.old.at < 2 ^ 61 }
        ensures puts { Puts self.old (decimal n) self.new }
        ensures near { self.new.at ≤ self.old.at + 20 }
    {
        if n >= 10 {
            self.number(n / 10);
        }
        self.text(&[b'0' + (n % 10) as u8]);
    }

    // A space, and a number.
    pub fn field(&mut self, n: usize)
        requires { self.old.at < 2 ^ 60 }
        ensures puts { Puts self.old (field n) self.new }
        ensures near { self.new.at ≤ self.old.at + 21 }
    {
        self.text(b" ");
        self.number(n);
    }
}
