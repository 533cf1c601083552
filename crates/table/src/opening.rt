// Opening a seat: a script is read onto it and its reading given.
ghost use Rattle.std.specs.Prelude.{◌≡◌, true};
ghost use Rattle.slots.specs.Owners.{owner_of};
ghost use Rattle.soundness.specs.Tests.{sound_test};
ghost use Rattle.table.specs.Answers.{said_opened};
ghost use Rattle.table.specs.Calls.{opened_seat, open_call};

use script::Script;
use seats::{Phase, Run, Seat, Table, Tally};
use slots::{Refusal, SlotSet};

// The seat with a script and its reading, at the beginning.
#[tactic(auto, unfolding(crate::specs::Calls::opened_seat))]
fn opened_seat(script: Script, reading: u32) -> Seat
    ensures { result ≡ opened_seat script reading }
{
    Seat {
        phase: Phase::Open,
        script,
        run: Run::opened(reading),
        pending: SlotSet::EMPTY,
        tally: Tally::NONE,
    }
}

// An opening on a table that is known to be sound, which is not tested again. A clause says so and no
// type: `SoundTable` rests on this call, and its invariant on upkeep, which stands above.
#[tactic(auto, unfolding(crate::specs::Calls::open_call, crate::specs::Calls::open_refusal, slots::specs::Refusals::refusal, script::specs::Frames::read_script, script::specs::Frames::read_refusal))]
pub fn sound_open(table: &mut Table, seat: u32, reading: u32, frame: &[u8]) -> Result<(), Refusal>
    requires { sound_test owner_of table.old ≡ true }
    ensures { said_opened result table.new ≡ open_call owner_of table.old seat reading frame.now }
{
    // Not by `get_mut`: after it a proof knows how many seats there are, and not what is in them.
    let i = seat as usize;
    let Some(z) = table.seats.get(i) else {
        return Err(Refusal::SeatTooHigh);
    };
    if z.phase.is_open() {
        return Err(Refusal::SeatOpen);
    }
    let script = script::read_script(frame)?;
    table.seats[i] = opened_seat(script, reading);
    Ok(())
}

// A refusal leaves the table as it came.
#[tactic(auto, unfolding(crate::specs::Calls::open_call, crate::specs::Calls::open_refusal, slots::specs::Refusals::refusal))]
pub fn open(table: &mut Table, seat: u32, reading: u32, frame: &[u8]) -> Result<(), Refusal>
    ensures { said_opened result table.new ≡ open_call owner_of table.old seat reading frame.now }
{
    soundness::check(table)?;
    sound_open(table, seat, reading, frame)
}
