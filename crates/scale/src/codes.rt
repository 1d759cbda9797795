// What several scales of Q codes have in common.
ghost use Rattle.std.specs.Prelude.{◌≡◌, bit_xor, slice_index};
ghost use Rattle.scale.specs.Gates.{itself};
ghost use Rattle.scale.specs.Model.{at_code, at_codes};

// A byte, as it is if it is a code.
pub(crate) fn own<const Q: u8>(a: u8) -> u8
    ensures { result ≡ at_code Q itself a }
{
    if a < Q { a } else { 0 }
}

// The exclusive or of two codes.
pub(crate) fn xor<const Q: u8>(a: u8, b: u8) -> u8
    ensures { result ≡ at_codes Q bit_xor a b }
{
    if a < Q && b < Q { a ^ b } else { 0 }
}

// The entry of a table at a code, and 0 past its end.
pub(crate) fn entry(table: &[u8], a: u8) -> u8
    ensures { result ≡ slice_index table.now a }
{
    table.get(a as usize).copied().unwrap_or(0)
}
