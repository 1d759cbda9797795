// Patches: their records and faults, the scan order they are read in, the check that admits one, its listing.

#![tactic(auto)]

mod cells;
mod check;
mod lines;
mod order;
mod record;
mod refusal;
mod setup;
mod text;
pub mod theorems;
mod window;

pub use check::examine;
pub use lines::{listing, refusal_line};
pub use order::ScanOrder;
pub use record::Record;
pub use refusal::Refusal;
pub use setup::Setup;
pub use window::{Patch, Records};
