// A list of presses played on a new rack: what `panel` does, and what a host can do in one call.
use crate::hold::Rack;
use forms::ENCODED_ROOM;
use patch::{Refusal, ScanOrder};
use std::alloc::{AllocError, Global};
use strip::Strip;

// The arguments of a panel call: for working strips and for an output, how many there are.
// kept: v of `Tie` as a byte, since the call refuses values above 1, which a bool could not hold.
#[derive(Drop)]
pub enum Press {
    Load {
        slot: usize,
        patch: Vec<u8>,
        work: usize,
    },
    Lay {
        to: usize,
        a: usize,
        b: usize,
        work: usize,
    },
    Weigh {
        to: usize,
        a: usize,
        code: u8,
    },
    Tie {
        to: usize,
        a: usize,
        input: u8,
        v: u8,
        work: usize,
    },
    Same {
        a: usize,
        b: usize,
    },
    Cells {
        a: usize,
    },
    Sound {
        a: usize,
        setting: u64,
    },
    Write {
        a: usize,
        room: usize,
    },
}

// What a call answers.
#[derive(Drop)]
pub enum Answer {
    Done,
    Agree(bool),
    Count(usize),
    Heard { code: u8, velocity: u8 },
    Wrote(Vec<u8>),
}

// What comes of a call: its answer, or why it is refused.
pub type Outcome = Result<Answer, Refusal>;

// So many of the working strips, from the first on; all of them, if there are fewer.
fn first<S>(work: &mut [S], most: usize) -> &mut [S] {
    let n = most.min(work.len());
    &mut work[..n]
}

fn wrote<S: Strip>(
    heap: Global,
    rack: &Rack<S>,
    a: usize,
    room: usize,
) -> Result<Outcome, AllocError> {
    let mut out = vec![in heap; 0u8; room.min(ENCODED_ROOM)]?;
    let length = rack.write(a, &mut out);
    Ok(length.map(|n| {
        out.truncate(n);
        Answer::Wrote(out)
    }))
}

// Makes one call.
fn make_call<S: Strip>(
    heap: Global,
    rack: &mut Rack<S>,
    press: &Press,
    work: &mut [S],
) -> Result<Outcome, AllocError> {
    let done = |()| Answer::Done;
    Ok(match *press {
        Press::Load {
            slot,
            ref patch,
            work: n,
        } => rack.load(slot, patch, first(work, n)).map(done),
        Press::Lay { to, a, b, work: n } => rack.lay(to, a, b, first(work, n)).map(done),
        Press::Weigh { to, a, code } => rack.weigh(to, a, code).map(done),
        Press::Tie {
            to,
            a,
            input,
            v,
            work: n,
        } => rack.tie(to, a, input, v, first(work, n)).map(done),
        Press::Same { a, b } => rack.same(a, b).map(Answer::Agree),
        Press::Cells { a } => rack.cells(a).map(Answer::Count),
        Press::Sound { a, setting } => rack
            .sound(a, setting)
            .map(|(code, velocity)| Answer::Heard { code, velocity }),
        Press::Write { a, room } => wrote(heap, rack, a, room)?,
    })
}

// Opens a rack over the strips, makes the calls one after the other, and says what came of each.
pub fn play<S: Strip>(
    heap: Global,
    order: &ScanOrder,
    strips: &mut [S],
    work: &mut [S],
    presses: &[Press],
) -> Result<Vec<Outcome>, AllocError> {
    let mut rack = Rack::open(order, strips);
    let mut outcomes = Vec::new(heap);
    for press in presses {
        outcomes.push(make_call(heap, &mut rack, press, work)?)?;
    }
    Ok(outcomes)
}
