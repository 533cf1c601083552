// The owner of a cell.
ghost use Rattle.std.specs.Prelude.{◌≡◌, ◌<◌};
ghost use Rattle.slots.specs.Sizes.{cells};
ghost use Rattle.slots.specs.Sets.{slot};
ghost use Rattle.slots.specs.Owners.{listed, Lists, said, owner_says};

use crate::owner_list::OwnerList;
use crate::{CELLS, Cell, Refusal, Slot, owner_list};

// The owner list, made once and lent to whoever asks for many owners: this compiler writes a
// constant array out anew wherever it is named.
pub fn all_owners() -> OwnerList
    ensures { Lists result }
{
    owner_list::OWNERS
}

// The slot that a lent list has for a cell.
pub fn listed(list: &OwnerList, c: Cell) -> Slot
    requires { c.0 < cells }
    ensures { result ≡ slot (listed list.now c.0) }
{
    Slot(u32::from(list[usize::from(c)]))
}

// The slot that owns a cell, or refusal 10: `said` gives the number and the value of each.
pub fn owner(c: Cell) -> Result<Slot, Refusal>
    ensures { said result ≡ owner_says c.0 }
{
    if c.0 < CELLS {
        let list = all_owners();
        Ok(listed(&list, c))
    } else {
        Err(Refusal::CellTooHigh)
    }
}
