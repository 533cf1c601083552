// One step of an open seat: what it wants, which case that is, and what the case does.
#![tactic(auto)]

mod after;
mod cases;
mod turns;
mod wants;

pub use cases::{Case, Word};
pub use turns::take_turn;
pub use wants::{Want, want_of};
