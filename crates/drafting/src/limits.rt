// A draft that is refused for its cells: nothing runs here, the contract names what is proved.
ghost use Rattle.drafting.specs.Limits.{TooManyForPatches};

// What settling refuses for its cells, no patch of at most 31 cells has.
pub fn refused_for_cells_has_no_small_patch() -> u8
    ensures { TooManyForPatches }
{
    0
}
