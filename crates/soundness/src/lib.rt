// A sound table: refusal 1 is given exactly if one of the six rules does not hold. One small function
// for each rule, or each part of one.
#![tactic(auto)]

mod open;
mod whole;

pub use whole::{check, seat_sound, sound};
