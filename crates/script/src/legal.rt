// Which scripts are legal. The reader, the writer and whoever is handed a script ask here.
ghost use Rattle.std.specs.Prelude.{◌≡◌, ◌+◌, ◌&&◌, nat_le};
ghost use Rattle.slots.specs.Refusals.{refusal, number_in};
ghost use Rattle.script.specs.Scripts.{instrs};
ghost use Rattle.script.specs.Legal.{is_register, is_cell, two_registers, legal_at, legal, script_checks};

use crate::{Instr, MAX_INSTRUCTIONS, REGISTERS, Script};
use slots::{CELLS, Refusal};

#[tactic(auto, unfolding(crate::specs::Legal::is_register))]
fn is_register(x: u8) -> bool
    ensures { result ≡ is_register x }
{
    usize::from(x) < REGISTERS
}

#[tactic(auto, unfolding(crate::specs::Legal::is_cell))]
fn is_cell(n: u32) -> bool
    ensures { result ≡ is_cell n }
{
    n < CELLS
}

impl Instr {
    #[tactic(auto, unfolding(crate::specs::Legal::two_registers))]
    fn two_registers(self) -> bool
        ensures { result ≡ two_registers self }
    {
        is_register(self.b) && self.c == 0
    }

    // i + 1 + c is at most k, asked so that no sum can overflow.
    fn skip_is_legal(self, i: usize, k: usize) -> bool
        ensures { result ≡ (is_register self.b && nat_le (i + 1 + self.c) k) }
    {
        is_register(self.b) && i < k && usize::from(self.c) < k - i
    }

    // Legal at position i of k instructions. No `match` on the op: its table of jumps costs a script of ops 4 to
    // 7 more than half as much again.
    #[tactic(auto, unfolding(crate::specs::Legal::legal_at))]
    fn is_legal(self, i: usize, k: usize) -> bool
        ensures { result ≡ legal_at k i self }
    {
        is_register(self.a)
            && if self.op < 4 {
                self.op == 1 || (1 < self.op && is_cell(self.k16()))
            } else if self.op < 8 {
                self.two_registers()
            } else {
                self.op == 8 && self.skip_is_legal(i, k)
            }
    }
}

impl Script {
    fn is_legal(&self) -> bool
        ensures { result ≡ legal (instrs self.now) }
    {
        let code = self.instrs();
        code.iter()
            .enumerate()
            .all(|(i, x)| x.is_legal(i, code.len()))
    }

    // Refusal 8, 9 or none.
    #[tactic(auto, unfolding(slots::specs::Refusals::refusal))]
    pub fn check(&self) -> Result<(), Refusal>
        ensures { number_in result ≡ refusal (script_checks self.now) }
    {
        if MAX_INSTRUCTIONS < self.len {
            return Err(Refusal::TooManyInstrs);
        }
        if !self.is_legal() {
            return Err(Refusal::InstrNotLegal);
        }
        Ok(())
    }
}
