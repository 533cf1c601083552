// A seat: its script, where the run of it stands, what it wants back after a restart, its counts.
ghost use Rattle.std.specs.Prelude.{◌≡◌, take};
ghost use Rattle.seats.specs.Seats.{is_open, opened_run, blank_seat};

use script::{MAX_INSTRUCTIONS, REGISTERS, Registers, Script};
use slots::{Cell, SlotSet};

// A write that the seat keeps until it commits.
#[derive(Clone, Copy, Debug, PartialEq, Eq)]
pub struct Write {
    pub cell: Cell,
    pub value: u32,
}

// The reading given at the opening, the position, the registers, and the kept writes: the first
// `kept` of `writes`, in their order; what stands behind them means nothing. Both numbers may say too
// much: refusal 1 speaks of every table that can be handed in (Demand1).
#[derive(Clone, Copy, Debug, PartialEq, Eq)]
pub struct Run {
    pub reading: u32,
    pub at: usize,
    pub regs: Registers,
    pub writes: [Write; MAX_INSTRUCTIONS],
    pub kept: usize,
}

// Restarts, working count, and the slots held just before the end.
#[derive(Clone, Copy, Debug, PartialEq, Eq)]
pub struct Tally {
    pub restarts: u32,
    pub working: u32,
    pub slots: u32,
}

#[derive(Clone, Copy, Debug, PartialEq, Eq)]
pub enum Phase {
    Blank,
    Open,
    Committed,
    Failed,
}

// What a seat holds stands in the slot table, and what it wants back here.
#[derive(Clone, Copy, Debug, PartialEq, Eq)]
pub struct Seat {
    pub phase: Phase,
    pub script: Script,
    pub run: Run,
    pub pending: SlotSet,
    pub tally: Tally,
}

impl Write {
    pub const NONE: Write = Write {
        cell: Cell(0),
        value: 0,
    };
}

impl Run {
    pub const BLANK: Run = Run {
        reading: 0,
        at: 0,
        regs: [0; REGISTERS],
        writes: [Write::NONE; MAX_INSTRUCTIONS],
        kept: 0,
    };

    // Register 0 is the reading, the others are zero, position is 0.
    #[tactic(auto, unfolding(crate::specs::Seats::opened_run, script::specs::Meaning::opening_registers))]
    pub fn opened(reading: u32) -> Run
        ensures { result ≡ opened_run reading }
    {
        let mut regs = [0; REGISTERS];
        regs[0] = reading;
        Run {
            reading,
            regs,
            ..Run::BLANK
        }
    }

    // The kept writes, whatever their number says.
    pub fn kept_writes(&self) -> &[Write]
        ensures { result.now ≡ take self.now.kept self.now.writes }
    {
        &self.writes[..self.kept.min(MAX_INSTRUCTIONS)]
    }
}

impl Tally {
    pub const NONE: Tally = Tally {
        restarts: 0,
        working: 0,
        slots: 0,
    };
}

impl Phase {
    #[tactic(auto, unfolding(crate::specs::Seats::is_open))]
    pub fn is_open(self) -> bool
        ensures { result ≡ is_open self }
    {
        matches!(self, Phase::Open)
    }
}

impl Seat {
    pub const BLANK: Seat = Seat {
        phase: Phase::Blank,
        script: Script::BLANK,
        run: Run::BLANK,
        pending: SlotSet::EMPTY,
        tally: Tally::NONE,
    };

    #[tactic(auto, unfolding(crate::specs::Seats::blank_seat, crate::specs::Seats::blank_run, script::specs::Scripts::blank_script))]
    pub fn blank() -> Seat
        ensures { result ≡ blank_seat }
    {
        Seat::BLANK
    }
}
