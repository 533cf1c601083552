// What a seat wants.
ghost use Rattle.std.specs.Prelude.{◌≡◌, get_or};
ghost use Rattle.slots.specs.Owners.{listed};
ghost use Rattle.script.specs.Scripts.{no_instr};
ghost use Rattle.script.specs.Meaning.{act_of};
ghost use Rattle.course.specs.Wants.{want_cell, want_act, want_of, said_slot, slot_of, wanted};

use script::{Access, Instr, Registers};
use seats::Seat;
use slots::{CELLS, Cell, OwnerList, Slot, listed};

// The description's lines A to D: a pending slot back; the end; nothing, for an instruction that
// accesses no cell, which is a line of its own and no absence; the slot of the cell that it accesses, or a cell that is not there.
#[derive(Clone, Copy, Debug, PartialEq, Eq)]
pub enum Want {
    Back(Slot),
    End,
    Nothing,
    Access(Slot),
    NoCell,
}

impl Want {
    // The slot that is wanted, if any.
    #[tactic(auto, unfolding(crate::specs::Wants::slot_of, crate::specs::Wants::wanted))]
    pub fn slot(self) -> Option<Slot>
        ensures number { said_slot result ≡ slot_of self }
        ensures slot { result ≡ wanted self }
    {
        match self {
            Want::Back(s) | Want::Access(s) => Some(s),
            Want::End | Want::Nothing | Want::NoCell => None,
        }
    }
}

#[tactic(auto, unfolding(crate::specs::Wants::want_cell))]
fn want_cell(c: Cell, owners: &OwnerList) -> Want
    ensures { result ≡ want_cell (listed owners.now) c.0 }
{
    if c.0 < CELLS {
        Want::Access(listed(owners, c))
    } else {
        Want::NoCell
    }
}

// Two arms, not `Reads(_, c) | Writes(c, _)`: there the goal `returns-in-Some-Reads` stayed open, as
// no fact says which of the two the cell came from.
fn want_instr(x: Instr, regs: &Registers, owners: &OwnerList) -> Want
    ensures { result ≡ want_act (listed owners.now) (act_of x regs.now) }
{
    match x.access(regs) {
        None => Want::Nothing,
        Some(Access::Reads(_, c)) => want_cell(c, owners),
        Some(Access::Writes(c, _)) => want_cell(c, owners),
    }
}

// The instruction at the seat's position.
pub fn instr_at(z: &Seat) -> Instr
    ensures { result ≡ get_or z.now.script.code z.now.run.at no_instr }
{
    z.script.code.get(z.run.at).copied().unwrap_or(Instr::NONE)
}

// By a lent owner list.
#[tactic(auto, unfolding(crate::specs::Wants::want_of, crate::specs::Wants::act_at))]
pub fn want_of(z: &Seat, owners: &OwnerList) -> Want
    ensures { result ≡ want_of (listed owners.now) z.now }
{
    if !z.pending.is_empty() {
        Want::Back(z.pending.smallest())
    } else if z.script.len <= z.run.at {
        Want::End
    } else {
        want_instr(instr_at(z), &z.run.regs, owners)
    }
}
