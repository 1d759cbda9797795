// The calls between two `open` lines are gathered, played in one go on a new rack, and answered in the order of their lines.
use crate::answers::Report;
use crate::script::{Fault, Line, Opening, ScaleName, Stop, read_line};
use forms::ENCODED_ROOM;
use patch::ScanOrder;
use rack::hold::STRIPS;
use rack::{Answer, Outcome, Press, Rack, play};
use std::alloc::{AllocError, Global};
use strip::Strip;
use strip::accents::AccentStrip;
use strip::gates::GateStrip;
use strip::lanes::LaneStrip;

// What a line that was gathered is answered by.
#[derive(Clone, Copy)]
enum Entry<'a> {
    // what came of the next press
    Answer,
    // the same, as a listing
    Listing,
    // the error of the line of this number
    Error(usize, Fault<'a>),
}

// A rack that is to be opened, what is to be pressed on it, and what is to be answered.
#[derive(Drop)]
struct Sitting<'a> {
    scale: ScaleName,
    order: ScanOrder,
    strips: usize,
    presses: Vec<Press>,
    entries: Vec<Entry<'a>>,
}

// The rack that is open, if one is, and the answers to all lines before it. Where none is open, a line is answered at once.
#[derive(Drop)]
pub struct Panel<'a> {
    heap: Global,
    rack: Option<Sitting<'a>>,
    report: Report,
}

// The most strips that are made for a rack: no call reaches further ones.
const MOST_STRIPS: usize = 1024;

fn blank_strips<S: Strip>(heap: Global, n: usize) -> Result<Vec<S>, AllocError> {
    (0..n).map(|_| S::blank()).collect(heap)
}

impl<'a> Sitting<'a> {
    // Plays what was gathered on a new rack of one kind of strip, and answers it.
    fn play_on<S: Strip>(&self, heap: Global, report: &mut Report) -> Result<(), AllocError> {
        let mut strips = blank_strips::<S>(heap, self.strips.min(MOST_STRIPS))?;
        let mut work = blank_strips::<S>(heap, STRIPS)?;
        report.outcome(&Rack::check(&strips).map(|()| Answer::Done))?;
        let outcomes = play(heap, &self.order, &mut strips, &mut work, &self.presses)?;
        self.answer::<S>(&outcomes, report)
    }

    // Answers the entries in order, each press by what came of it.
    fn answer<S: Strip>(
        &self,
        outcomes: &[Outcome],
        report: &mut Report,
    ) -> Result<(), AllocError> {
        let mut rest = outcomes.iter();
        for entry in &self.entries {
            match entry {
                Entry::Error(number, fault) => report.error(*number, fault)?,
                Entry::Answer => {
                    if let Some(outcome) = rest.next() {
                        report.outcome(outcome)?;
                    }
                }
                Entry::Listing => {
                    if let Some(outcome) = rest.next() {
                        report.listed::<S>(&self.order, outcome)?;
                    }
                }
            }
        }
        Ok(())
    }
}

impl<'a> Panel<'a> {
    pub fn new(heap: Global) -> Panel<'a> {
        Panel {
            heap,
            rack: None,
            report: Report::new(heap),
        }
    }

    // The answers to all lines.
    pub fn finish(mut self) -> Result<Vec<u8>, AllocError> {
        self.close()?;
        let Panel {
            heap: _,
            rack: _,
            report,
        } = self;
        Ok(report.into_bytes())
    }

    // Answers what was gathered, and leaves no rack open.
    fn close(&mut self) -> Result<(), AllocError> {
        let Some(sitting) = self.rack.take() else {
            return Ok(());
        };
        match sitting.scale {
            ScaleName::Gates => sitting.play_on::<GateStrip>(self.heap, &mut self.report),
            ScaleName::Accents => sitting.play_on::<AccentStrip>(self.heap, &mut self.report),
            ScaleName::Lanes => sitting.play_on::<LaneStrip>(self.heap, &mut self.report),
        }
    }

    // Opens a new rack, or none if the scan list is refused.
    fn open(&mut self, opening: Opening) -> Result<(), AllocError> {
        self.close()?;
        let mut order = ScanOrder::new();
        match order.arrange(&opening.list) {
            Ok(()) => {
                self.rack = Some(Sitting {
                    scale: opening.scale,
                    order,
                    strips: opening.strips,
                    presses: Vec::new(self.heap),
                    entries: Vec::new(self.heap),
                });
                Ok(())
            }
            Err(refusal) => self.report.refusal(&refusal),
        }
    }

    fn error(&mut self, number: usize, fault: Fault<'a>) -> Result<(), AllocError> {
        match &mut self.rack {
            Some(sitting) => Ok(sitting.entries.push(Entry::Error(number, fault))?),
            None => self.report.error(number, &fault),
        }
    }

    fn press(&mut self, number: usize, press: Press, entry: Entry<'a>) -> Result<(), AllocError> {
        match &mut self.rack {
            Some(sitting) => {
                sitting.presses.push(press)?;
                Ok(sitting.entries.push(entry)?)
            }
            None => self.report.error(number, &Fault::NoRack),
        }
    }

    // Takes the line of this number.
    pub fn take_line(&mut self, number: usize, line: &'a [u8]) -> Result<(), AllocError> {
        match read_line(self.heap, line) {
            Ok(None) => Ok(()),
            Ok(Some(Line::Open(opening))) => self.open(opening),
            Ok(Some(Line::Call(press))) => self.press(number, press, Entry::Answer),
            Ok(Some(Line::List(a))) => {
                let room = ENCODED_ROOM;
                self.press(number, Press::Write { a, room }, Entry::Listing)
            }
            Err(Stop::Fault(fault)) => self.error(number, fault),
            Err(Stop::Memory(error)) => Err(error),
        }
    }
}
