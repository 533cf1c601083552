// One step of an open seat, whole.
ghost use Rattle.std.specs.Prelude.{◌≡◌};
ghost use Rattle.slots.specs.Owners.{listed};
ghost use Rattle.course.specs.Words.{said_word};
ghost use Rattle.course.specs.Steps.{Fits, image_after, case_in, turn, turn_of, waits_for};

use crate::after::{change_image, change_seat, change_slots};
use crate::cases::case_for;
use crate::{Want, Word, want_of};
use seats::{Seat, SlotTable};
use slots::OwnerList;

// The seat is in the queue of the slot that it wants. Not by `want.slot().is_some_and(..)`: where no
// slot is wanted the definition asks queue 64, and behind a `&` a proof does not know that there is none.
#[tactic(auto, unfolding(crate::specs::Steps::waits_for))]
fn waits_for(want: Want, seat: u8, slots: &SlotTable) -> bool
    ensures { result ≡ waits_for want slots.now seat }
{
    match want {
        Want::Back(s) | Want::Access(s) => slots.waits(seat, s),
        Want::End | Want::Nothing | Want::NoCell => false,
    }
}

// The step of seat number `seat`, which is z, by a lent owner list: the reply.
#[tactic(auto, using(crate::proofs::Orders::image_first, crate::proofs::Orders::waits_asked), unfolding(crate::specs::Steps::turn_of))]
pub fn take_turn(
    z: &mut Seat,
    slots: &mut SlotTable,
    image: &mut [u32],
    seat: u8,
    owners: &OwnerList,
) -> Word
    requires { Fits z.old }
    ensures turn { turn (said_word result) z.new slots.new ≡ turn_of (listed owners.now) z.old slots.old image.old seat }
    ensures written { image.new ≡ image_after (case_in (listed owners.now) z.old slots.old seat) z.old.run image.old }
{
    let held = slots.held_by(seat);
    let want = want_of(z, owners);
    let waits = waits_for(want, seat, slots);
    let c = case_for(want, held, slots.owned(), waits);
    // The image first, while the seat still has its kept writes: at a commit, which alone changes
    // the image, the seat does not read it.
    change_image(c, &z.run, image);
    change_seat(c, z, held, image);
    change_slots(c, slots, seat);
    c.word()
}
