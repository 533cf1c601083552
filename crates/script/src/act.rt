// What an instruction does, given the registers: `access` for ops 2 to 5, `local` for the others.
ghost use Rattle.std.specs.Prelude.{◌≡◌, slice_set};
ghost use Rattle.script.specs.Meaning.{register, act_of, access_of, moved, local_of};

use crate::{Instr, REGISTERS};
use slots::Cell;

pub type Registers = [u32; REGISTERS];

// The cell that an instruction reads into a register, or writes a value to. `access_of` says of
// which act each is the access.
#[derive(Clone, Copy, Debug, PartialEq, Eq)]
pub enum Access {
    Reads(u8, Cell),
    Writes(Cell, u32),
}

fn register(regs: &Registers, a: u8) -> u32
    ensures { result ≡ register regs.now a }
{
    regs.get(usize::from(a)).copied().unwrap_or(0)
}

// There is no register above 7, and none changes there. Not through `get_mut`: after it a proof
// knows the array's length and no register (`returns-in-Some`).
pub fn set_register(regs: &mut Registers, a: u8, value: u32)
    ensures { regs.new ≡ slice_set regs.old a value }
{
    let i = usize::from(a);
    if i < REGISTERS {
        regs[i] = value;
    }
}

impl Instr {
    // None for an instruction that accesses no cell.
    #[tactic(auto, unfolding(crate::specs::Meaning::access_of, crate::specs::Meaning::act_of))]
    pub fn access(self, regs: &Registers) -> Option<Access>
        ensures { result ≡ access_of (act_of self regs.now) }
    {
        match self.op {
            2 => Some(Access::Reads(self.a, Cell(self.k16()))),
            3 => Some(Access::Writes(Cell(self.k16()), register(regs, self.a))),
            4 => Some(Access::Reads(self.a, Cell(register(regs, self.b)))),
            5 => Some(Access::Writes(Cell(register(regs, self.b)), register(regs, self.a))),
            _ => None,
        }
    }

    // How many instructions it skips. Nothing changes here at an access.
    #[tactic(auto, unfolding(crate::specs::Meaning::local_of, crate::specs::Meaning::act_of, crate::specs::Meaning::plus, crate::specs::Meaning::minus, crate::specs::Meaning::is_less))]
    pub fn local(self, regs: &mut Registers) -> usize
        ensures { moved regs.new result ≡ local_of regs.old (act_of self regs.old) }
    {
        let x = register(regs, self.a);
        let y = register(regs, self.b);
        match self.op {
            1 => set_register(regs, self.a, self.k16()),
            6 => set_register(regs, self.a, x.wrapping_add(y)),
            7 => set_register(regs, self.a, x.wrapping_sub(y)),
            8 if x < y => return usize::from(self.c),
            _ => {}
        }
        0
    }
}
