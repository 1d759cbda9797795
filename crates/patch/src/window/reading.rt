// The records of a window, one after another.
ghost use Rattle.std.specs.Iterator.{YieldsFirstBy, item_count};
ghost use Rattle.patch.specs.Judging.{meant};
ghost use Rattle.patch.specs.Windows.{records_left};

use super::Records;
use crate::record::{Record, read_record};

impl<'a> Iterator for Records<'a> {
    type Item = Record;

    ghost next_gives = { YieldsFirstBy meant records_left };

    ghost remaining = { item_count records_left };

    fn next(&mut self) -> Option<Record> {
        let (record, rest) = self.bytes.split_at_checked(4)?;
        self.bytes = rest;
        Some(read_record(record))
    }
}
