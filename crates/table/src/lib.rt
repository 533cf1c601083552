// The public calls on a table: opening, step, result, slot view, and the reading of a cell.
#![tactic(auto)]

mod asking;
mod opening;
mod stepping;

pub use asking::{Report, SlotView, cell_read, result, slot_view};
pub use opening::{open, sound_open};
pub use stepping::{sound_step, step};
