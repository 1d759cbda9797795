// Drafts: a diagram laid out in working strips, ready to be settled. Every call that gives a slot a new rule makes its diagram here.
//
// A draft has the places 0 to m: first its cells, those of earlier positions before those of later ones, and last the steady place.

#![tactic(auto)]

pub mod form;
pub mod from_forms;
pub mod from_patch;
pub mod limits;
pub mod part;
pub mod plan;
pub mod rows;

pub use form::FormView;
pub use from_forms::{draft_sum, draft_tied};
pub use from_patch::{draft_patch, setup};
