// Settled forms in strips: how a slot keeps one, when two are the same, their bytes, and their code at a setting.

#![tactic(auto)]

pub mod alike;
pub mod encoding;
pub mod evaluate;
pub mod keep;

pub use alike::{same_inputs, same_strips};
pub use encoding::{ENCODED_ROOM, encode};
pub use evaluate::code_at;
pub use keep::{keep_form, keep_silent, keep_weighed};
