// Rule 1 of a sound table: no slot is owned twice, nobody waits twice, and a slot with a queue is
// owned.
#![tactic(auto)]

mod held;
mod lines;

pub use held::common;
pub use lines::slots_sound;
