// What a patch is read for.
use crate::order::ScanOrder;

// What a patch is read for: a scan order, so many places, and so many codes.
#[derive(Clone, Copy)]
pub struct Setup {
    pub order: ScanOrder,
    pub places: usize,
    pub codes: u8,
}
