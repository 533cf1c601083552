// Scripts: their instructions and what each does, their frames, the reader and the writer.
#![tactic(auto)]

mod act;
mod code;
mod legal;
mod reading;
mod writing;

pub use act::{Access, Registers, set_register};
pub use code::{Instr, Script, word};
pub use reading::read_script;
pub use writing::write_script;

// The most instructions a script has.
pub const MAX_INSTRUCTIONS: usize = 64;
// The bytes of a frame in front of its body, and of an instruction.
pub const HEAD_BYTES: usize = 3;

pub const INSTR_BYTES: usize = 4;
// The only version of a frame.
pub const VERSION: u8 = 1;
// The registers of a seat.
pub const REGISTERS: usize = 8;
