// What settling works on and what it answers, and where the areas of working memory begin.

ghost use Rattle.std.specs.Prelude.{◌≡◌, ◌+◌, ◌<◌, ◌≤◌, length, slice_index, slice_set, MatchOption};
ghost use Rattle.settling.specs.Draft.{Ordered, Block, Span};

// The rows of a draft: what each place is worth where its position reads 0, and what it gains where it reads 1.
// kept: numbers and no enum, since they are counted from (the rows dif of a position begin at DIF + its first place).
pub const OFF: usize = 0;

pub const DIF: usize = 128;

// The table of rows while places are trimmed.
pub const ROW: usize = 256;

// Afterwards in its place: the table of a position's gains, the canonical cells, and the images of places over them.
pub const TAB: usize = 256;

pub const CAN: usize = 288;

pub const IMG: usize = 384;

// The most places of a canonical diagram: the steady one and 31 cells.
pub const MOST: usize = 32;

// The places of a diagram and their positions: the cells 0 .. cells - 1, those of earlier positions first, and last the
// steady place, with the number of positions for its own.
// kept: a list of fixed size with the count beside it, since the library uses no heap.
#[derive(Clone, Copy)]
pub struct Places {
    pub cells: usize,
    pub pos: [u8; 128],
    ghost few: { cells < 128 },
    ghost wide: { length pos ≡ 128 },
    ghost order: { Ordered cells pos },
}

impl Places {
    // Where the places of h's position end.
    pub(crate) fn block_end(&self, h: usize) -> usize
        requires below { h < self.now.cells }
        ensures { Block self.now.cells self.now.pos h result }
    {
        let here = self.pos[h];
        let rest = &self.pos[h..self.cells];
        match rest.iter().position(|&p| p != here) {
            Some(k) => h + k,
            None => self.cells,
        }
    }

    // Where the places of the position before e begin.
    fn block_start(&self, e: usize) -> usize
        requires some { 0 < e }
        requires ends { e ≤ self.now.cells }
        ensures { Span self.now.pos result e }
    {
        let here = self.pos[e - 1];
        let before = &self.pos[..e];
        match before.iter().rposition(|&p| p != here) {
            Some(k) => k + 1,
            None => 0,
        }
    }

    // The places of the position before e.
    pub(crate) fn run_before(&self, e: usize) -> Run
        requires some { 0 < e }
        requires ends { e ≤ self.now.cells }
        ensures ends { result.end ≡ e }
        ensures span { Span self.now.pos result.start result.end }
    {
        Run {
            start: self.block_start(e),
            end: e,
        }
    }
}

// The places start .. end - 1, which are those of one position.
#[derive(Clone, Copy)]
pub(crate) struct Run {
    pub start: usize,
    pub end: usize,
    ghost some: { start < end },
}

// A diagram whose rows stand in working memory: its places, and its outlet.
#[derive(Clone, Copy)]
pub struct Draft<S> {
    pub places: Places,
    pub out: S,
}

// The places of a canonical diagram and their positions: the steady place, 0, and the cells 1 .. cells.
// kept: apart from `Places`, since the steady place is first here and last there, and only those are in order; its list is of fixed size for the same reason.
#[derive(Clone, Copy)]
pub struct FormPlaces {
    pub cells: usize,
    pub pos: [u8; 32],
    ghost few: { cells ≤ 31 },
    ghost wide: { length pos ≡ 32 },
}

impl FormPlaces {
    // The steady place alone, with its position.
    pub(crate) fn steady(n: u8) -> FormPlaces
        ensures cells { result.cells ≡ 0 }
        ensures position { slice_index result.pos 0 ≡ n }
    {
        let mut pos = [0; 32];
        pos[0] = n;
        FormPlaces { cells: 0, pos }
    }

    // One cell more, of position p; answers its number, or nothing if there are 31 already.
    pub(crate) fn push(&mut self, p: u8) -> Option<usize>
        ensures { MatchOption result ((self.old.cells ≡ 31) × (self.new ≡ self.old)) (λ j. (j ≡ self.old.cells + 1) × (self.new.cells ≡ j) × (self.new.pos ≡ slice_set self.old.pos j p)) }
    {
        let j = self.cells + 1;
        if j >= MOST {
            return None;
        }
        self.pos[j] = p;
        self.cells = j;
        Some(j)
    }
}

// A canonical diagram whose rows stand in working memory, that of cell j at CAN + j: its places, and its outlet.
#[derive(Clone, Copy)]
pub struct Form<S> {
    pub places: FormPlaces,
    pub out: S,
}

// No diagram of at most 31 cells has the rule.
#[derive(Clone, Copy, Debug)]
pub struct TooMany;
