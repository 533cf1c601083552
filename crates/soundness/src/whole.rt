// The whole test.
ghost use Rattle.std.specs.Prelude.{◌≡◌, is_ok, IfErr};
ghost use Rattle.slots.specs.declared.refusals.Refusal;
ghost use Rattle.slots.specs.Owners.{owner_of, listed};
ghost use Rattle.soundness.specs.Tests.{phase_test, sound_test};

use crate::open::{open_sound, wanted};
use rule_one::slots_sound;
use rule_six::{blank_rule, ended_rule};
use seats::{Phase, SEATS, Seat, Table};
use slots::{OwnerList, Refusal, Slot, SlotSet, all_owners};

// A seat that holds `held`: whether it waits at all, and whether for the slot it wants. (`here` is
// asked of a queued seat alone, as the definition's test has it; so the two stay apart.)
#[tactic(auto, unfolding(crate::specs::Tests::phase_test))]
pub fn seat_sound(z: &Seat, held: SlotSet, queued: bool, here: bool, owners: &OwnerList) -> bool
    ensures { result ≡ phase_test (listed owners.now) z.now.phase z.now held queued here }
{
    match z.phase {
        Phase::Blank => blank_rule(z, held, queued),
        Phase::Open => open_sound(z, held, queued, here, owners),
        Phase::Committed | Phase::Failed => ended_rule(z, held, queued),
    }
}

pub fn sound(t: &Table) -> bool
    ensures { result ≡ sound_test owner_of t.now }
{
    let Ok(free) = slots_sound(&t.slots) else {
        return false;
    };
    let owners = all_owners();
    // By the seat's number, which the seat, what it holds and its place in a queue go by. (Cast: no
    // `From` leads from `usize` to `u8`.)
    for i in 0..SEATS as u8 {
        let z = &t.seats[usize::from(i)];
        let queued = !free.has(Slot(u32::from(i)));
        let here = queued && t.slots.waits(i, wanted(z, &owners));
        if !seat_sound(z, t.slots.held_by(i), queued, here, &owners) {
            return false;
        }
    }
    true
}

// The same test where a call begins: refusal 1, handed on by `?`.
pub fn check(t: &Table) -> Result<(), Refusal>
    ensures sound { is_ok result ≡ sound_test owner_of t.now }
    ensures refused { IfErr result (λ r. r ≡ Refusal.TableNotSound) }
{
    if !sound(t) {
        return Err(Refusal::TableNotSound);
    }
    Ok(())
}
