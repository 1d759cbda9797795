// Accents, a byte to a place.
use super::bytes::ByteStrip;
use scale::accents::Accents;

pub type AccentStrip = ByteStrip<Accents>;
