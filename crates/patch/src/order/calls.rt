// The calls of a scan order.
ghost use Rattle.std.specs.Prelude.{◌≡◌, [], ◌∷◌, length, slice_index};
ghost use Rattle.patch.specs.Faults.{position};
ghost use Rattle.patch.specs.Orders.{listed, Arranged};

use super::ScanOrder;
use crate::refusal::Refusal;

impl ScanOrder {
    // Input 0 alone.
    pub fn new() -> Self
        ensures { listed result ≡ 0 ∷ [] }
    {
        ScanOrder {
            count: 1,
            inputs: [0; 24],
            positions: [0; 24],
        }
    }

    // Takes the order over from a list that holds each input once; otherwise refuses, and stays as it is.
    pub fn arrange(&mut self, list: &[u8]) -> Result<(), Refusal>
        ensures { Arranged list.now self.old result self.new }
    {
        let n = list.len();
        if n == 0 || n > 24 {
            return Err(Refusal::InputCount);
        }
        let mut inputs = [0; 24];
        inputs[..n].copy_from_slice(list);
        let mut seen = [false; 24];
        let mut positions = [0; 24];
        for (k, input) in list.iter().enumerate() {
            let v = *input as usize;
            if v >= n || seen[v] {
                return Err(Refusal::InputList);
            }
            seen[v] = true;
            positions[v] = k as u8;
        }
        *self = ScanOrder {
            count: n as u8,
            inputs,
            positions,
        };
        Ok(())
    }

    // How many inputs there are.
    pub fn count(&self) -> u8
        ensures { result ≡ length (listed self.now) }
    {
        self.count
    }

    // The input read at position k, 0 past the end.
    // kept: 0 and no Option, since the listed order itself is read so, 0 past its end.
    pub fn input(&self, k: u8) -> u8
        ensures { result ≡ slice_index (listed self.now) k }
    {
        if k < self.count {
            self.inputs[k as usize]
        } else {
            0
        }
    }

    // The position of input i, or the number of inputs if it is not listed.
    // kept: a number and no Option, since it compares as later than every position; and beside `input`, from which it differs in table and answer.
    pub fn position(&self, i: u8) -> u8
        ensures { result ≡ position (listed self.now) i }
    {
        if i < self.count {
            self.positions[i as usize]
        } else {
            self.count
        }
    }
}
