// Opening a rack.
use super::{Desk, Rack, STRIPS, Slot};
use patch::{Refusal, ScanOrder};
use strip::Strip;

impl<'a, S: Strip> Rack<'a, S> {
    // Whether there are strips enough for a rack with slots.
    pub fn check(strips: &[S]) -> Result<(), Refusal> {
        if strips.len() < STRIPS {
            return Err(Refusal::FewStrips);
        }
        Ok(())
    }

    // A rack with all slots silent; over fewer than 512 strips it has no slots.
    pub fn open(order: &ScanOrder, strips: &'a mut [S]) -> Rack<'a, S> {
        let desk = Desk {
            order: *order,
            slots: [Slot::silent(); 16],
        };
        // kept: tried as `fill`, which asks for a clone that cannot fail, and the trait Strip does not say that of one
        for s in strips.iter_mut() {
            *s = S::blank();
        }
        Rack { strips, desk }
    }
}
