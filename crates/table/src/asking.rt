// What can be asked: the result of an ended seat, a slot's owner and queue, a cell of the image.
ghost use Rattle.std.specs.Prelude.{◌≡◌, ◌<◌, IfSome};
ghost use Rattle.slots.specs.Owners.{owner_of};
ghost use Rattle.seats.specs.Queues.{seats};
ghost use Rattle.table.specs.Answers.{said_report, said_view, said_cell, said_holder};
ghost use Rattle.table.specs.Calls.{is_ended, holder_of, lined_up, result_call, slot_view_call, cell_read_call};

use script::Registers;
use seats::{Phase, Queue, SEATS, SlotTable, Table, Tally};
use slots::{CELLS, Cell, Refusal, Slot};

// Outcome, registers and counts of an ended seat.
#[derive(Clone, Copy, Debug, PartialEq, Eq)]
pub struct Report {
    pub outcome: Phase,
    pub regs: Registers,
    pub tally: Tally,
}

// The seat that owns the slot, if any, and the queue of those who wait for it; zeros behind them.
#[derive(Clone, Copy, Debug, PartialEq, Eq)]
pub struct SlotView {
    pub owner: Option<u8>,
    pub queue: Queue,
}

#[tactic(auto, unfolding(crate::specs::Calls::is_ended))]
fn is_ended(p: Phase) -> bool
    ensures { result ≡ is_ended p }
{
    matches!(p, Phase::Committed | Phase::Failed)
}

#[tactic(auto, unfolding(crate::specs::Calls::result_call, crate::specs::Calls::result_refusal, slots::specs::Refusals::refusal))]
pub fn result(table: &Table, seat: u32) -> Result<Report, Refusal>
    ensures { said_report result ≡ result_call owner_of table.now seat }
{
    soundness::check(table)?;
    // Cast, here and in the other calls: no `From` leads from `u32` to `usize`.
    let Some(z) = table.seats.get(seat as usize) else {
        return Err(Refusal::SeatTooHigh);
    };
    if !is_ended(z.phase) {
        return Err(Refusal::SeatNotEnded);
    }
    Ok(Report {
        outcome: z.phase,
        regs: z.run.regs,
        tally: z.tally,
    })
}

// The seat that holds s. (`SEATS as u8`: a constant cannot be made by `From`.)
fn holder(t: &SlotTable, s: Slot) -> Option<u8>
    ensures first { said_holder result ≡ holder_of t.now s.0 }
    ensures seat { IfSome result (λ i. i < seats) }
{
    (0..SEATS as u8).find(|i| t.held_by(*i).has(s))
}

// Those who wait, and zeros behind them.
fn lined_up(q: &Queue) -> Queue
    ensures { result ≡ lined_up q.now }
{
    let waiting = q.entries();
    let mut seats = [0; SEATS];
    seats[..waiting.len()].copy_from_slice(waiting);
    Queue { seats, len: q.len }
}

#[tactic(auto, unfolding(crate::specs::Calls::slot_view_call, crate::specs::Calls::view_refusal, slots::specs::Refusals::refusal))]
pub fn slot_view(table: &Table, s: Slot) -> Result<SlotView, Refusal>
    ensures { said_view result ≡ slot_view_call owner_of table.now s.0 }
{
    soundness::check(table)?;
    let Some(q) = table.slots.queues.get(usize::from(s)) else {
        return Err(Refusal::SlotTooHigh);
    };
    Ok(SlotView {
        owner: holder(&table.slots, s),
        queue: lined_up(q),
    })
}

#[tactic(auto, unfolding(crate::specs::Calls::cell_read_call, crate::specs::Calls::cell_refusal, slots::specs::Refusals::refusal))]
pub fn cell_read(image: &[u32], c: Cell) -> Result<u32, Refusal>
    ensures { said_cell result ≡ cell_read_call image.now c.0 }
{
    if image.len() != CELLS as usize {
        return Err(Refusal::ImageNotWhole);
    }
    image
        .get(usize::from(c))
        .copied()
        .ok_or(Refusal::CellTooHigh)
}
