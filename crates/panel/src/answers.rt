// Answers as lines of text.
use crate::script::Fault;
use crate::words::hex_char;
use drafting::setup;
use patch::{Patch, Refusal, ScanOrder, listing, refusal_line};
use rack::{Answer, Outcome};
use std::alloc::{AllocError, Global};
use std::fmt::Display;
use strip::Strip;

// Room for the listing of every settled form.
const LISTING_ROOM: usize = 65536;

// Room for the line of every refusal.
const LINE_ROOM: usize = 64;

// The lines so far. They are kept as bytes, for a word of a script that is named in an error need be no text.
#[derive(Drop)]
pub struct Report {
    heap: Global,
    lines: Vec<u8>,
}

impl Report {
    pub fn new(heap: Global) -> Report {
        Report {
            heap,
            lines: Vec::new(heap),
        }
    }

    pub fn into_bytes(self) -> Vec<u8> {
        let Report { heap: _, lines } = self;
        lines
    }

    // What `write!` and `writeln!` call.
    fn write_fmt<D: Display + Drop>(&mut self, shown: D) -> Result<(), AllocError> {
        let text = String::format(self.heap, shown)?;
        self.lines.extend_from_slice(text.as_bytes())
    }

    // A word of the script, and what it is not.
    fn no(&mut self, word: &[u8], what: &str) -> Result<(), AllocError> {
        self.lines.extend_from_slice(word)?;
        writeln!(self, " is no {what}")
    }

    // Why a line is no call that can be made, behind its number.
    pub fn error(&mut self, line: usize, fault: &Fault) -> Result<(), AllocError> {
        write!(self, "error {line} ")?;
        match fault {
            Fault::UnknownCall => self.lines.extend_from_slice(b"unknown call\n"),
            Fault::WordCount => self.lines.extend_from_slice(b"wrong number of words\n"),
            Fault::NoNumber(word) => self.no(word, "number"),
            Fault::NoScale(word) => self.no(word, "scale"),
            Fault::NoHexadecimal(word) => self.no(word, "hexadecimal"),
            Fault::NoRack => self.lines.extend_from_slice(b"no rack is open\n"),
        }
    }

    // kept: by `refusal_line`, which is proved to put the line with its end, and asks for no text on the heap.
    pub fn refusal(&mut self, refusal: &Refusal) -> Result<(), AllocError> {
        let mut line = [0; LINE_ROOM];
        match refusal_line(refusal, &mut line) {
            Ok(n) => self.lines.extend_from_slice(&line[..n]),
            Err(_) => Ok(()),
        }
    }

    // Bytes in hexadecimal, `-` for none.
    // kept: two digits pushed for a byte, since a text formatted for each byte takes many times as long.
    fn bytes(&mut self, bytes: &[u8]) -> Result<(), AllocError> {
        self.lines.extend_from_slice(b"bytes ")?;
        if bytes.is_empty() {
            self.lines.push(b'-')?;
        }
        for b in bytes {
            self.lines.push(hex_char(b >> 4))?;
            self.lines.push(hex_char(b & 15))?;
        }
        self.lines.extend_from_slice(b"\n")
    }

    // kept: what is the same each time goes in as bytes, since `writeln!` makes a text on the heap first.
    fn answer(&mut self, answer: &Answer) -> Result<(), AllocError> {
        match answer {
            Answer::Done => self.lines.extend_from_slice(b"done\n"),
            Answer::Agree(true) => self.lines.extend_from_slice(b"yes\n"),
            Answer::Agree(false) => self.lines.extend_from_slice(b"no\n"),
            Answer::Count(cells) => writeln!(self, "cells {cells}"),
            Answer::Heard { code, velocity } => writeln!(self, "sound {code} {velocity}"),
            Answer::Wrote(bytes) => self.bytes(bytes),
        }
    }

    pub fn outcome(&mut self, outcome: &Outcome) -> Result<(), AllocError> {
        match outcome {
            Ok(answer) => self.answer(answer),
            Err(refusal) => self.refusal(refusal),
        }
    }

    // What came of a write, where the bytes are listed.
    pub fn listed<S: Strip>(
        &mut self,
        order: &ScanOrder,
        outcome: &Outcome,
    ) -> Result<(), AllocError> {
        let Ok(Answer::Wrote(bytes)) = outcome else {
            return self.outcome(outcome);
        };
        let mut lines = vec![in self.heap; 0u8; LISTING_ROOM]?;
        let patch = Patch::admit(bytes, &setup::<S>(order));
        match listing(&patch, &mut lines) {
            Ok(n) => self.lines.extend_from_slice(&lines[..n]),
            Err(refusal) => self.refusal(&refusal),
        }
    }
}
