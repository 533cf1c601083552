// Rule 1: the queues. Nobody waits twice, and a slot with a queue is owned.
ghost use Rattle.std.specs.Prelude.{◌≡◌, true};
ghost use Rattle.slots.specs.Sizes.{slots};
ghost use Rattle.seats.specs.Queues.{entries};
ghost use Rattle.rule_one.specs.Tests.{all_seats, waiters, unmet, met, met_all, said_unmet, lengths_test, left_over};

use crate::held::held_apart;
use seats::{Queue, SEATS, SlotTable};
use slots::{SLOTS, Slot, SlotSet};

// The sixteen seats, as a set: sixteen ones.
fn all_seats() -> SlotSet
    ensures { result ≡ all_seats }
{
    SlotSet(65535)
}

// The seats that have not been met in a queue yet; Err once one was met that was not among them.
type Unmet = Result<SlotSet, SlotSet>;

// One seat is met.
#[tactic(auto, unfolding(crate::specs::Tests::met))]
fn meet(unmet: Unmet, seat: u8) -> Unmet
    ensures { said_unmet result ≡ met seat (said_unmet unmet) }
{
    let s = Slot(u32::from(seat));
    match unmet {
        Ok(left) | Err(left) if !left.has(s) => Err(left),
        Ok(left) => Ok(left.without(s)),
        Err(left) => Err(left.without(s)),
    }
}

fn meet_queue(unmet: Unmet, q: &Queue) -> Unmet
    ensures { said_unmet result ≡ met_all (entries q.now) (said_unmet unmet) }
{
    q.entries()
        .iter()
        .fold(unmet, |unmet, seat| meet(unmet, *seat))
}

// Everyone who waits.
fn meet_all(t: &SlotTable) -> Unmet
    ensures { said_unmet result ≡ met_all (waiters t.now slots) (unmet true all_seats) }
{
    let mut unmet = Ok(all_seats());
    for q in &t.queues {
        unmet = meet_queue(unmet, q);
    }
    unmet
}

// No queue is longer than there are seats, and a slot with a queue is owned.
fn lengths_sound(t: &SlotTable, owned: SlotSet) -> bool
    ensures { result ≡ lengths_test t.now owned }
{
    (0..SLOTS).zip(&t.queues).all(|(s, q)| q.len <= SEATS && (q.len == 0 || owned.has(Slot(s))))
}

// Rule 1 whole: where it holds, the seats that wait in no queue; where not, those left over.
#[tactic(auto, unfolding(crate::specs::Tests::left_over))]
pub fn slots_sound(t: &SlotTable) -> Result<SlotSet, SlotSet>
    ensures { said_unmet result ≡ left_over t.now }
{
    if held_apart(t) && lengths_sound(t, t.owned()) {
        meet_all(t)
    } else {
        Err(SlotSet::EMPTY)
    }
}
