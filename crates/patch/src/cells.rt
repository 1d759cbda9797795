// The cells declared so far: how many, and which input each reads. An arc names a cell by one byte, so the inputs of the first 255 are kept.
ghost use Rattle.std.specs.Prelude.{◌≡◌, ◌+◌, ◌^◌, ◌<◌, ◌||◌, ltb, length, if◌then◌else◌, ◌==◌, nat_le, nat_lt, slice_index, slice_set};

// kept: a table of fixed size with the count beside it, since the library uses no heap.
#[derive(Clone, Copy)]
pub struct Cells {
    count: usize,
    inputs: [u8; 256],
}

impl Cells {
    pub fn none() -> Self
        ensures { (result.count ≡ 0) × (length result.inputs ≡ 256) }
    {
        Cells {
            count: 0,
            inputs: [0; 256],
        }
    }

    // Cells are numbered from 1; the steady cell 0 is always there.
    pub fn has(&self, cell: u8) -> bool
        ensures { result ≡ nat_le cell self.now.count }
    {
        cell as usize <= self.count
    }

    // Whether an arc comes from the steady cell, or an end of it is not there.
    pub fn lacks(&self, from: u8, to: u8) -> bool
        ensures { result ≡ (from == 0) || nat_lt self.now.count from || nat_lt self.now.count to }
    {
        from == 0 || !self.has(from) || !self.has(to)
    }

    // The input that a cell reads.
    pub fn input(&self, cell: u8) -> u8
        ensures { result ≡ slice_index self.now.inputs cell }
    {
        self.inputs[cell as usize]
    }

    // Whether one more cell would leave no place for the steady one.
    pub fn full(&self, places: usize) -> bool
        ensures { result ≡ nat_le places (self.now.count + 1) }
    {
        places.saturating_sub(1) <= self.count
    }

    pub fn declare(&mut self, input: u8)
        requires { self.old.count < 2 ^ 63 }
        ensures counts { self.new.count ≡ self.old.count + 1 }
        ensures keeps { self.new.inputs ≡ (if ltb (self.old.count + 1) 256 then slice_set self.old.inputs (self.old.count + 1) input else self.old.inputs) }
    {
        self.count += 1;
        if self.count < 256 {
            self.inputs[self.count] = input;
        }
    }
}
