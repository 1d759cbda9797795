// An admitted patch: a window on bytes that pass the check.
ghost use Rattle.patch.specs.Admitted.{Admitted};
ghost use Rattle.patch.specs.Orders.{listed};
ghost use Rattle.patch.specs.Records.{records, Readable};

use crate::setup::Setup;

mod calls;
mod reading;

// The bytes pass the check for this setup.
#[derive(Clone, Copy)]
pub struct Patch<'a> {
    bytes: &'a [u8],
    setup: Setup,
    ghost admitted: { Admitted (listed setup.order) setup.places setup.codes bytes.now },
}

// The records of a patch that are to come, in its bytes.
#[derive(Drop)]
pub struct Records<'a> {
    bytes: &'a [u8],
    ghost readable: { Readable (records bytes.now) },
}
