// The slot table: which slots each seat holds, and the queue of each slot. A slot's owner is the
// seat that holds it; nothing else says so.
ghost use Rattle.std.specs.Prelude.{◌≡◌};
ghost use Rattle.seats.specs.SlotTables.{held_by, queue_of, owned, taken, joined_by, handed, handed_on, released};
ghost use Rattle.seats.specs.Queues.{waits_in};

use crate::{Queue, SEATS};
use slots::{SLOTS, Slot, SlotSet};

// The held sets are an array of their own beside the table's seats, so that slots change hands without
// a seat being touched; refusal 1 and `Demand1` speak of both as they are.
#[derive(Clone, Copy, Debug, PartialEq, Eq)]
pub struct SlotTable {
    pub held: [SlotSet; SEATS],
    pub queues: [Queue; SLOTS as usize],
}

impl SlotTable {
    pub const FREE: SlotTable = SlotTable {
        held: [SlotSet::EMPTY; SEATS],
        queues: [Queue::EMPTY; SLOTS as usize],
    };

    // The slots that a seat holds: none where there is no such seat.
    pub fn held_by(&self, seat: u8) -> SlotSet
        ensures { result ≡ held_by self.now seat }
    {
        self.held
            .get(usize::from(seat))
            .copied()
            .unwrap_or(SlotSet::EMPTY)
    }

    // The slots that some seat holds: from the last seat, which is how the definition unites them.
    pub fn owned(&self) -> SlotSet
        ensures { result ≡ owned self.now }
    {
        self.held
            .iter()
            .rfold(SlotSet::EMPTY, |all, h| h.union(all))
    }

    // The seat waits in the queue of s.
    pub fn waits(&self, seat: u8, s: Slot) -> bool
        ensures { result ≡ waits_in (queue_of self.now s.0) seat }
    {
        self.queues.get(usize::from(s)).is_some_and(|q| q.has(seat))
    }

    // The seat holds s too. By index, here and below: std does not say what a slice is after a
    // write through its `get_mut` (tried: `returns-in-Some` stayed open).
    #[tactic(auto, unfolding(crate::specs::SlotTables::taken))]
    pub fn take(&mut self, seat: u8, s: Slot)
        ensures { self.new ≡ taken self.old seat s.0 }
    {
        let i = usize::from(seat);
        if i < SEATS {
            self.held[i] = self.held[i].with(s);
        }
    }

    // The seat comes to the tail of the queue of s.
    #[tactic(auto, unfolding(crate::specs::SlotTables::joined_by))]
    pub fn join(&mut self, seat: u8, s: Slot)
        ensures { self.new ≡ joined_by self.old seat s.0 }
    {
        let k = usize::from(s);
        if k < self.queues.len() {
            self.queues[k].join(seat);
        }
    }

    // A slot goes to the head of its queue, which leaves the queue; with no queue it is left free.
    #[tactic(auto, unfolding(crate::specs::SlotTables::handed))]
    fn hand(&mut self, s: Slot)
        ensures { self.new ≡ handed self.old s.0 }
    {
        let k = usize::from(s);
        if k < self.queues.len() && self.queues[k].len != 0 {
            let head = self.queues[k].head();
            self.queues[k].serve();
            self.take(head, s);
        }
    }

    // The same of each slot of a set, the smallest first. An iterator over a set would be longer than
    // this loop, the only one that takes a set apart.
    fn hand_on(&mut self, set: SlotSet)
        ensures { self.new ≡ handed_on self.old set }
    {
        let mut left = set;
        while !left.is_empty() {
            let s = left.smallest();
            left = left.without(s);
            self.hand(s);
        }
    }

    // The seat gives up the slots of a set.
    pub fn release(&mut self, seat: u8, set: SlotSet)
        ensures { self.new ≡ released self.old seat set }
    {
        let i = usize::from(seat);
        if i < SEATS {
            self.held[i] = self.held[i].difference(set);
        }
        self.hand_on(set);
    }
}
