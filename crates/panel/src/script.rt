// A line of a script: which call it asks for, or why it is none.
ghost use Rattle.std.specs.Prelude.{◌≤◌, length};

use crate::words::{hex_byte, number, words};
use forms::ENCODED_ROOM;
use rack::Press;
use rack::hold::STRIPS;
use std::alloc::{AllocError, Global};

// The scale of a rack.
#[derive(Clone, Copy)]
pub enum ScaleName {
    Gates,
    Accents,
    Lanes,
}

// What a rack is opened with: the scan list, and the number of strips.
#[derive(Drop)]
pub struct Opening {
    pub scale: ScaleName,
    pub list: Vec<u8>,
    pub strips: usize,
}

// What a line asks for.
#[derive(Drop)]
pub enum Line {
    Open(Opening),
    Call(Press),
    List(usize),
}

// Why a line is no call that can be made. The word is the one that is wrong.
#[derive(Clone, Copy)]
pub enum Fault<'a> {
    UnknownCall,
    WordCount,
    NoNumber(&'a [u8]),
    NoScale(&'a [u8]),
    NoHexadecimal(&'a [u8]),
    NoRack,
}

// Why a line was not read: it is no call, or there was no memory.
#[derive(Drop)]
pub enum Stop<'a> {
    Fault(Fault<'a>),
    Memory(AllocError),
}

impl<'a> From<Fault<'a>> for Stop<'a> {
    fn from(fault: Fault<'a>) -> Stop<'a> {
        Stop::Fault(fault)
    }
}

impl<'a> From<AllocError> for Stop<'a> {
    fn from(error: AllocError) -> Stop<'a> {
        Stop::Memory(error)
    }
}

impl<'a> TryFrom<&'a [u8]> for ScaleName {
    type Error = Fault<'a>;

    fn try_from(word: &'a [u8]) -> Result<ScaleName, Fault<'a>> {
        match word {
            b"gates" => Ok(ScaleName::Gates),
            b"accents" => Ok(ScaleName::Accents),
            b"lanes" => Ok(ScaleName::Lanes),
            _ => Err(Fault::NoScale(word)),
        }
    }
}

fn a_number<'a>(word: &'a [u8]) -> Result<u64, Fault<'a>> {
    number(word).ok_or(Fault::NoNumber(word))
}

fn a_count<'a>(word: &'a [u8]) -> Result<usize, Fault<'a>> {
    Ok(a_number(word)? as usize)
}

// A number where a byte is wanted.
// kept: 255 for what is too large, which is out of every range as 255 is, so that the call itself refuses it.
fn a_byte<'a>(word: &'a [u8]) -> Result<u8, Fault<'a>> {
    Ok(u8::try_from(a_number(word)?).unwrap_or(u8::MAX))
}

// The bytes that a word of hexadecimal digits is, two to a byte; `-` is no bytes.
fn some_bytes<'a>(heap: Global, word: &'a [u8]) -> Result<Vec<u8>, Stop<'a>> {
    match word {
        b"-" => Ok(Vec::new(heap)),
        _ if word.len() % 2 != 0 => Err(Stop::Fault(Fault::NoHexadecimal(word))),
        _ => word
            .chunks(2)
            .map(|pair| hex_byte(pair).ok_or(Stop::Fault(Fault::NoHexadecimal(word))))
            .try_collect(heap),
    }
}

// The words before a last pair of this keyword and a number, and the word of the number; all words, if they end in no such pair.
fn before_pair<'w, 'a>(words: &'w [&'a [u8]], keyword: &[u8]) -> (&'w [&'a [u8]], Option<&'a [u8]>)
    ensures { length (result.0).now ≤ length words.now }
{
    match words {
        [before @ .., last_but_one, number] if *last_but_one == keyword => {
            (before, Some(*number))
        }
        _ => (words, None),
    }
}

// The number of that pair, or another if there is none.
fn count_or<'a>(word: Option<&'a [u8]>, other: usize) -> Result<usize, Fault<'a>> {
    word.map_or(Ok(other), a_count)
}

// kept: a function to a call from here on, since each takes other words and makes another press.
fn open_line<'a>(heap: Global, words: &[&'a [u8]]) -> Result<Opening, Stop<'a>> {
    let (words, strips) = before_pair(words, b"strips");
    let [scale, inputs @ ..] = words else {
        return Err(Stop::Fault(Fault::WordCount));
    };
    Ok(Opening {
        scale: ScaleName::try_from(*scale)?,
        list: inputs
            .iter()
            .map(|word| a_byte(word).map_err(Stop::Fault))
            .try_collect(heap)?,
        strips: count_or(strips, STRIPS)?,
    })
}

fn load_line<'a>(heap: Global, words: &[&'a [u8]]) -> Result<Press, Stop<'a>> {
    let (words, work) = before_pair(words, b"work");
    let [slot, patch] = words else {
        return Err(Stop::Fault(Fault::WordCount));
    };
    Ok(Press::Load {
        slot: a_count(slot)?,
        patch: some_bytes(heap, patch)?,
        work: count_or(work, STRIPS)?,
    })
}

fn lay_line<'a>(words: &[&'a [u8]]) -> Result<Press, Fault<'a>> {
    let (words, work) = before_pair(words, b"work");
    let [to, a, b] = words else {
        return Err(Fault::WordCount);
    };
    Ok(Press::Lay {
        to: a_count(to)?,
        a: a_count(a)?,
        b: a_count(b)?,
        work: count_or(work, STRIPS)?,
    })
}

fn tie_line<'a>(words: &[&'a [u8]]) -> Result<Press, Fault<'a>> {
    let (words, work) = before_pair(words, b"work");
    let [to, a, input, v] = words else {
        return Err(Fault::WordCount);
    };
    Ok(Press::Tie {
        to: a_count(to)?,
        a: a_count(a)?,
        input: a_byte(input)?,
        v: a_byte(v)?,
        work: count_or(work, STRIPS)?,
    })
}

fn weigh_line<'a>(words: &[&'a [u8]]) -> Result<Press, Fault<'a>> {
    let [to, a, code] = words else {
        return Err(Fault::WordCount);
    };
    Ok(Press::Weigh {
        to: a_count(to)?,
        a: a_count(a)?,
        code: a_byte(code)?,
    })
}

fn write_line<'a>(words: &[&'a [u8]]) -> Result<Press, Fault<'a>> {
    let (words, room) = before_pair(words, b"room");
    Ok(Press::Write {
        a: one_slot(words)?,
        room: count_or(room, ENCODED_ROOM)?,
    })
}

fn same_line<'a>(words: &[&'a [u8]]) -> Result<Press, Fault<'a>> {
    let [a, b] = words else {
        return Err(Fault::WordCount);
    };
    Ok(Press::Same {
        a: a_count(a)?,
        b: a_count(b)?,
    })
}

fn sound_line<'a>(words: &[&'a [u8]]) -> Result<Press, Fault<'a>> {
    let [a, setting] = words else {
        return Err(Fault::WordCount);
    };
    Ok(Press::Sound {
        a: a_count(a)?,
        setting: a_number(setting)?,
    })
}

// The slot, where the words name a slot and nothing else.
fn one_slot<'a>(words: &[&'a [u8]]) -> Result<usize, Fault<'a>> {
    match words {
        [a] => a_count(a),
        _ => Err(Fault::WordCount),
    }
}

// What a line asks for. Blank lines, and lines that begin with #, ask for nothing.
pub fn read_line<'a>(heap: Global, line: &'a [u8]) -> Result<Option<Line>, Stop<'a>> {
    let found = words(heap, line)?;
    let [name, words @ ..] = found.as_slice() else {
        return Ok(None);
    };
    Ok(Some(match *name {
        [b'#', ..] => return Ok(None),
        b"open" => Line::Open(open_line(heap, words)?),
        b"load" => Line::Call(load_line(heap, words)?),
        b"lay" => Line::Call(lay_line(words)?),
        b"weigh" => Line::Call(weigh_line(words)?),
        b"tie" => Line::Call(tie_line(words)?),
        b"same" => Line::Call(same_line(words)?),
        b"cells" => Line::Call(Press::Cells {
            a: one_slot(words)?,
        }),
        b"sound" => Line::Call(sound_line(words)?),
        b"write" => Line::Call(write_line(words)?),
        b"list" => Line::List(one_slot(words)?),
        _ => return Err(Stop::Fault(Fault::UnknownCall)),
    }))
}
