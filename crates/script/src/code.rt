// Instructions and scripts as values.
ghost use Rattle.std.specs.Prelude.{◌≡◌};
ghost use Rattle.script.specs.Scripts.{word, k16, instrs, blank_script};

use crate::MAX_INSTRUCTIONS;

// An op may be none of the eight: refusal 9 speaks of it, so it is a byte.
#[derive(Clone, Copy, Debug, PartialEq, Eq)]
pub struct Instr {
    pub op: u8,
    pub a: u8,
    pub b: u8,
    pub c: u8,
}

// The first `len` of `code` are the script's instructions; what stands behind them means nothing. The
// length may say too much: refusal 8 of the writer speaks of such scripts (Demand1), so no type shuts
// them out, and callers read the fields, so it is no generic type of n items either.
#[derive(Clone, Copy, Debug, PartialEq, Eq)]
pub struct Script {
    pub code: [Instr; MAX_INSTRUCTIONS],
    pub len: usize,
}

impl Instr {
    pub const NONE: Instr = Instr {
        op: 0,
        a: 0,
        b: 0,
        c: 0,
    };

    // The number that b and c are.
    pub fn k16(self) -> u32
        ensures { result ≡ k16 self }
    {
        u32::from(word(self.b, self.c))
    }
}

impl Script {
    pub const BLANK: Script = Script {
        code: [Instr::NONE; MAX_INSTRUCTIONS],
        len: 0,
    };

    #[tactic(auto, unfolding(crate::specs::Scripts::blank_script))]
    pub fn blank() -> Script
        ensures { result ≡ blank_script }
    {
        Script::BLANK
    }

    // Its instructions, whatever the length says: there are never more than there is room for.
    #[tactic(auto, unfolding(crate::specs::Scripts::instrs))]
    pub fn instrs(&self) -> &[Instr]
        ensures { result.now ≡ instrs self.now }
    {
        &self.code[..self.len.min(MAX_INSTRUCTIONS)]
    }
}

// Two bytes, the high byte first.
#[tactic(auto, unfolding(crate::specs::Scripts::word))]
pub fn word(high: u8, low: u8) -> u16
    ensures { result ≡ word high low }
{
    u16::from_be_bytes([high, low])
}
