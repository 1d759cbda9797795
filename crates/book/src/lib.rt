// The rule book: what the slots of a rack hold after a list of presses. Nothing runs here: the contract names what is proved of it.

#![tactic(auto)]

ghost use Rattle.book.specs.Laws.{OneCause, OneAnswer, OneReading, Quiet};

// The presses decide the book: a press has one cause of refusal at most, one answer, and leads to one set of pages.
pub fn presses_decide_the_book() -> u8
    ensures cause { OneCause }
    ensures answer { OneAnswer }
    ensures reading { OneReading }
    ensures quiet { Quiet }
{
    0
}
