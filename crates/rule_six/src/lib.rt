// Rule 6 of a sound table, of a seat that is not open.
#![tactic(auto)]

ghost use Rattle.std.specs.Prelude.{◌≡◌, ◌&&◌};
ghost use Rattle.rule_six.specs.Tests.{closed_test, ended_test, is_no_instr, is_no_write, is_blank_script, no_registers, no_writes, is_blank_run, blank_test};

use script::{Instr, Script};
use seats::{Run, Seat, Tally, Write};
use slots::{SLOTS, SlotSet};

// The most restarts and the largest working count of an ended seat.
const MOST_RESTARTS: u32 = 63;

const MOST_WORKING: u32 = 12225;

// One instruction, and below one write, by value: behind a reference they take some four times as long.
#[tactic(auto, using(crate::proofs::Blanks::instr_is))]
fn is_no_instr(x: Instr) -> bool
    ensures { result ≡ is_no_instr x }
{
    x == Instr::NONE
}

#[tactic(auto, unfolding(crate::specs::Tests::is_no_write))]
fn is_no_write(w: Write) -> bool
    ensures { result ≡ is_no_write w }
{
    w == Write::NONE
}

// Element by element, here and of a run: `== Script::BLANK` writes the blank one out first, which takes
// longer than to compare it.
fn is_blank_script(s: &Script) -> bool
    ensures { result ≡ is_blank_script s.now }
{
    s.len == 0 && s.code.iter().all(|x| is_no_instr(*x))
}

fn no_registers(run: &Run) -> bool
    ensures { result ≡ no_registers run.now }
{
    run.regs.iter().all(|x| *x == 0)
}

fn no_writes(run: &Run) -> bool
    ensures { result ≡ no_writes run.now }
{
    run.writes.iter().all(|w| is_no_write(*w))
}

#[tactic(auto, unfolding(crate::specs::Tests::is_blank_run))]
fn is_blank_run(run: &Run) -> bool
    ensures { result ≡ is_blank_run run.now }
{
    run.reading == 0 && run.at == 0 && run.kept == 0 && no_registers(run) && no_writes(run)
}

// A never opened seat is blank.
#[tactic(auto, using(crate::proofs::Blanks::tally_is), unfolding(crate::specs::Tests::blank_test))]
fn blank_sound(z: &Seat) -> bool
    ensures { result ≡ blank_test z.now }
{
    is_blank_script(&z.script) && is_blank_run(&z.run) && z.tally == Tally::NONE
}

// It holds, wants and keeps nothing.
#[tactic(auto, unfolding(crate::specs::Tests::closed_test))]
fn closed_sound(z: &Seat, held: SlotSet, queued: bool) -> bool
    ensures { result ≡ closed_test z.now held queued }
{
    held.is_empty() && !queued && z.pending.is_empty() && z.run.kept == 0
}

// What an ended one reports.
#[tactic(auto, unfolding(crate::specs::Tests::ended_test))]
fn ended_sound(t: Tally) -> bool
    ensures { result ≡ ended_test t }
{
    t.restarts <= MOST_RESTARTS && t.slots <= SLOTS && t.working <= MOST_WORKING
}

// The rule of a seat never opened, and of an ended one. The seat, what it holds and whether it is
// queued stay three parameters, as they are of the definition's tests: a struct of them would only be
// taken apart again.
pub fn blank_rule(z: &Seat, held: SlotSet, queued: bool) -> bool
    ensures { result ≡ (closed_test z.now held queued && blank_test z.now) }
{
    closed_sound(z, held, queued) && blank_sound(z)
}

pub fn ended_rule(z: &Seat, held: SlotSet, queued: bool) -> bool
    ensures { result ≡ (closed_test z.now held queued && ended_test z.now.tally) }
{
    closed_sound(z, held, queued) && ended_sound(z.tally)
}
