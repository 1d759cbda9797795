// How a window is taken, and what is seen through it.
ghost use Rattle.std.specs.Prelude.{◌≡◌, length};
ghost use Rattle.patch.specs.Judging.{meant};
ghost use Rattle.patch.specs.Records.{records, nth};
ghost use Rattle.patch.specs.Windows.{seen, records_left, Admits};

use super::{Patch, Records};
use crate::check::examine;
use crate::order::ScanOrder;
use crate::record::{Record, read_record};
use crate::setup::Setup;

impl<'a> Patch<'a> {
    // The window on some bytes, or on no bytes if these fail the check.
    pub fn admit(bytes: &'a [u8], setup: &Setup) -> Patch<'a>
        ensures { Admits bytes.now setup.now result }
    {
        let shown: &'a [u8] = match examine(bytes, setup) {
            Ok(()) => bytes,
            Err(_) => &[],
        };
        Patch {
            bytes: shown,
            setup: *setup,
        }
    }

    pub fn bytes(&self) -> &'a [u8]
        ensures { result.now ≡ seen self.now }
    {
        self.bytes
    }

    // The scan order that the bytes were checked for.
    pub fn order(&self) -> ScanOrder
        ensures { result ≡ self.now.setup.order }
    {
        self.setup.order
    }

    // How many records there are.
    pub fn count(&self) -> usize
        ensures { result ≡ length (records (seen self.now)) }
    {
        self.bytes.len() / 4
    }

    // The records, first to last.
    pub fn records(&self) -> Records<'a>
        ensures { records_left result ≡ records (seen self.now) }
    {
        Records { bytes: self.bytes }
    }

    // Record k, filler past the end.
    // kept: filler and no Option past the end, as the records themselves are read; and its place is reckoned, since `nth` of `Records` walks over all before it.
    pub fn record(&self, k: usize) -> Record
        ensures { meant result ≡ nth (records (seen self.now)) k }
    {
        if k < self.bytes.len() / 4 {
            read_record(&self.bytes[4 * k..4 * k + 4])
        } else {
            Record::Filler
        }
    }
}
