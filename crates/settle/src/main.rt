// settle: reads a patch from standard input and prints the listing of its settled bytes, or the line of its refusal.
// The scale is gates, and the inputs 0 to 23 are read in that order.

#![tactic(auto)]

use drafting::setup;
use forms::ENCODED_ROOM;
use patch::{Patch, Refusal, ScanOrder, listing, refusal_line};
use rack::Rack;
use rack::hold::STRIPS;
use std::alloc::{AllocError, Global};
use std::io::{Read, Write};
use strip::Strip;
use strip::gates::GateStrip;

// One byte more than a patch may have, so that a longer one is seen to be too long.
const MOST_READ: u64 = 65537;

const SCAN_LIST: [u8; 24] = [
    0, 1, 2, 3, 4, 5, 6, 7, 8, 9, 10, 11, 12, 13, 14, 15, 16, 17, 18, 19, 20, 21, 22, 23,
];

// Room for the listing of every settled form.
const LISTING_ROOM: usize = 65536;

// Room for the line of every refusal.
const LINE_ROOM: usize = 64;

// Why there is no listing: the patch is refused, or there was no memory.
// kept: apart from panel's, which stops for a fault of a line and not for a refusal.
#[derive(Drop)]
enum Stop {
    Refused(Refusal),
    Memory(AllocError),
}

impl From<Refusal> for Stop {
    fn from(refusal: Refusal) -> Stop {
        Stop::Refused(refusal)
    }
}

impl From<AllocError> for Stop {
    fn from(error: AllocError) -> Stop {
        Stop::Memory(error)
    }
}

// The listing of the settled bytes of a patch: it is loaded into the first slot of a new rack, and written from there.
fn settled_listing(heap: Global, bytes: &[u8]) -> Result<Vec<u8>, Stop> {
    let mut strips = vec![in heap; GateStrip::blank(); STRIPS]?;
    let mut work = vec![in heap; GateStrip::blank(); STRIPS]?;
    let mut settled = vec![in heap; 0u8; ENCODED_ROOM]?;
    let mut text = vec![in heap; 0u8; LISTING_ROOM]?;
    let mut order = ScanOrder::new();
    order.arrange(&SCAN_LIST)?;
    let mut rack = Rack::open(&order, &mut strips);
    rack.load(0, bytes, &mut work)?;
    let n = rack.write(0, &mut settled)?;
    settled.truncate(n);
    let patch = Patch::admit(&settled, &setup::<GateStrip>(&order));
    let n = listing(&patch, &mut text)?;
    text.truncate(n);
    Ok(text)
}

// The line of a refusal.
// kept: by `refusal_line`, which is proved to put the line with its end.
fn refused(heap: Global, refusal: &Refusal) -> Result<Vec<u8>, AllocError> {
    let mut line = vec![in heap; 0u8; LINE_ROOM]?;
    let n = refusal_line(refusal, &mut line).unwrap_or(0);
    line.truncate(n);
    Ok(line)
}

// The text to print.
fn answer(heap: Global, bytes: &[u8]) -> Result<Vec<u8>, AllocError> {
    settled_listing(heap, bytes).or_else(|stop| match stop {
        Stop::Refused(refusal) => refused(heap, &refusal),
        Stop::Memory(error) => Err(error),
    })
}

fn main(rt: HostRuntime) -> anyhow::Result<()> {
    let heap = rt.alloc();
    let mut bytes = Vec::new(heap);
    rt.stdin().take(MOST_READ).read_to_end(&mut bytes)?;
    let text = answer(heap, &bytes)?;
    rt.stdout().write_all(&text)?;
    Ok(())
}
