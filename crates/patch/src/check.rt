// The check of a patch: its length, then record by record up to the first faulty one.
ghost use Rattle.std.specs.Prelude.{[]};
ghost use Rattle.patch.specs.Admitted.{examined};
ghost use Rattle.patch.specs.Faults.{check_from};
ghost use Rattle.patch.specs.Orders.{listed};
ghost use Rattle.patch.specs.Records.{records};
ghost use Rattle.patch.specs.Refusals.{Tells};

use crate::cells::Cells;
use crate::record::{Record, check_record};
use crate::refusal::Refusal;
use crate::setup::Setup;

// The most bytes a patch may have.
const MOST_BYTES: usize = 65536;

// Checks the records one by one; the first faulty one ends the scan.
fn scan(bytes: &[u8], setup: &Setup) -> Result<(), Refusal>
    ensures { Tells result (check_from (listed setup.now.order) setup.now.places setup.now.codes 0 [] (records bytes.now)) }
{
    let mut cells = Cells::none();
    // kept: a labelled break that yields the refusal, a form that docs/DECISIONS.md asks for.
    'scan: {
        for (k, record) in bytes.chunks_exact(4).enumerate() {
            let record = match check_record(record, k, &cells, setup) {
                Ok(record) => record,
                Err(refusal) => break 'scan Err(refusal),
            };
            if let Record::Cell(input) = record {
                cells.declare(input);
            }
        }
        Ok(())
    }
}

// Whether some bytes are a patch for this setup.
pub fn examine(bytes: &[u8], setup: &Setup) -> Result<(), Refusal>
    ensures { Tells result (examined (listed setup.now.order) setup.now.places setup.now.codes bytes.now) }
{
    if bytes.len() > MOST_BYTES {
        return Err(Refusal::LongPatch);
    }
    if bytes.len() % 4 != 0 {
        return Err(Refusal::BrokenRecord);
    }
    scan(bytes, setup)?;
    Ok(())
}
