// Bytes as text: decimal numbers and lower-case hex are read, a line is cut at a byte, and pieces and
// decimal numbers are put into a destination.
#![tactic(auto)]

mod decimal;
mod hex;
mod page;
mod pieces;

pub use decimal::read_number;
pub use hex::read_hex;
pub use page::Page;
pub use pieces::{cut, until};
