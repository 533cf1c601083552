// Seats and the slot table: who holds which slots, who waits for which, and how slots change hands.
#![tactic(auto)]

mod queue;
mod seat;
mod slot_table;
mod table;

pub use queue::Queue;
pub use seat::{Phase, Run, Seat, Tally, Write};
pub use slot_table::SlotTable;
pub use table::Table;

// How many seats there are.
pub const SEATS: usize = 16;
