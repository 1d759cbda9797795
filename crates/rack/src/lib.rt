// The rack: sixteen slots that each keep a rule in its smallest form, and the panel calls on them.

#![tactic(auto)]

pub mod hold;
pub mod playing;

pub use hold::Rack;
pub use playing::{Answer, Outcome, Press, play};
