// Lanes, a byte to a place.
use super::bytes::ByteStrip;
use scale::lanes::Lanes;

pub type LaneStrip = ByteStrip<Lanes>;
