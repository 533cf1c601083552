// Cells, slots and sets of slots, and which slot owns which cell.
//
// Document 001 keeps a location and the index of its lock apart. So do `Cell` and `Slot`: a slot
// given where a cell belongs does not build (tests/slot_for_cell).
#![tactic(auto)]

ghost use Rattle.std.specs.Prelude.{◌≡◌};

mod owner_list;
mod owning;
mod refusals;
mod set;

pub use owner_list::OwnerList;
pub use owning::{all_owners, listed, owner};
pub use refusals::{Refusal, number_in};
pub use set::SlotSet;

// How many cells and how many slots there are. Where one is an array's length it is cast: no constant
// can be made by `From`.
pub const CELLS: u32 = 1024;

pub const SLOTS: u32 = 64;

#[derive(Clone, Copy, Debug, PartialEq, Eq, Hash)]
pub struct Cell(pub u32);

#[derive(Clone, Copy, Debug, PartialEq, Eq, Hash)]
pub struct Slot(pub u32);

// Where a cell, and where a slot, stands in an array. Rust has no `From<u32> for usize`, so each is
// cast here and nowhere else.
impl From<Cell> for usize {
    ghost from_gives = { λ c i. i ≡ c.0 };

    fn from(c: Cell) -> usize {
        c.0 as usize
    }
}

impl From<Slot> for usize {
    ghost from_gives = { λ s i. i ≡ s.0 };

    fn from(s: Slot) -> usize {
        s.0 as usize
    }
}
