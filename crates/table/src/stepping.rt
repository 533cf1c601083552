// One step of a seat.
ghost use Rattle.std.specs.Prelude.{◌≡◌, true};
ghost use Rattle.slots.specs.Owners.{owner_of};
ghost use Rattle.soundness.specs.Tests.{sound_test};
ghost use Rattle.table.specs.Answers.{said_stepped};
ghost use Rattle.table.specs.Calls.{step_call, step_image};

use course::{Word, take_turn};
use seats::Table;
use slots::{CELLS, Refusal, all_owners};

// A step of a table that is known to be sound, which is not tested again: a clause, as of `sound_open`.
#[tactic(auto, unfolding(crate::specs::Calls::step_call, crate::specs::Calls::step_image, crate::specs::Calls::step_refusal, slots::specs::Refusals::refusal))]
pub fn sound_step(table: &mut Table, image: &mut [u32], seat: u32) -> Result<Word, Refusal>
    requires { sound_test owner_of table.old ≡ true }
    ensures answer { said_stepped result table.new ≡ step_call owner_of table.old image.old seat }
    ensures image { image.new ≡ step_image owner_of table.old image.old seat }
{
    if image.len() != CELLS as usize {
        return Err(Refusal::ImageNotWhole);
    }
    // Not by `get_mut`, as in `sound_open`.
    let i = seat as usize;
    let Some(z) = table.seats.get(i) else {
        return Err(Refusal::SeatTooHigh);
    };
    if !z.phase.is_open() {
        return Err(Refusal::SeatNotOpen);
    }
    let owners = all_owners();
    // The seat's number is below 16 here, which the check shows to fit.
    Ok(take_turn(
        &mut table.seats[i],
        &mut table.slots,
        image,
        seat as u8,
        &owners,
    ))
}

// A refusal leaves the table and the image as they came.
#[tactic(auto, unfolding(crate::specs::Calls::step_call, crate::specs::Calls::step_image, crate::specs::Calls::step_refusal, slots::specs::Refusals::refusal))]
pub fn step(table: &mut Table, image: &mut [u32], seat: u32) -> Result<Word, Refusal>
    ensures answer { said_stepped result table.new ≡ step_call owner_of table.old image.old seat }
    ensures image { image.new ≡ step_image owner_of table.old image.old seat }
{
    soundness::check(table)?;
    sound_step(table, image, seat)
}
