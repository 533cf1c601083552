// Every table made by calls is sound: the six rules are kept by every step and every opening. So
// whoever keeps a table to these calls need not have it tested again.
#![tactic(auto)]

mod sound_table;

pub use sound_table::SoundTable;
