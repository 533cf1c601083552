// A sheet of lines, and its listing.
#![tactic(auto)]

mod cells;
mod lines;
mod listing;
mod pieces;
mod replies;
mod words;

pub use listing::{MOST_INPUT, MOST_LISTING, list_sheet};
