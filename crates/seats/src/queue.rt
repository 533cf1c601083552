// The queue of a slot: the seats that wait for it, in their order.
ghost use Rattle.std.specs.Prelude.{◌≡◌};
ghost use Rattle.seats.specs.Queues.{no_one, entries, waits_in, joined, served, head_of};

use crate::SEATS;

// The first `len` of `seats` wait; what stands behind them means nothing. The length may say too much:
// refusal 1 speaks of every table that can be handed in (Demand1).
#[derive(Clone, Copy, Debug, PartialEq, Eq)]
pub struct Queue {
    pub seats: [u8; SEATS],
    pub len: usize,
}

impl Queue {
    pub const EMPTY: Queue = Queue {
        seats: [0; SEATS],
        len: 0,
    };

    #[tactic(auto, unfolding(crate::specs::Queues::no_one))]
    pub fn empty() -> Queue
        ensures { result ≡ no_one }
    {
        Queue::EMPTY
    }

    // The seats that wait, whatever the length says.
    #[tactic(auto, unfolding(crate::specs::Queues::entries))]
    pub fn entries(&self) -> &[u8]
        ensures { result.now ≡ entries self.now }
    {
        &self.seats[..self.len.min(SEATS)]
    }

    pub fn has(&self, seat: u8) -> bool
        ensures { result ≡ waits_in self.now seat }
    {
        self.entries().contains(&seat)
    }

    #[tactic(auto, unfolding(crate::specs::Queues::head_of))]
    pub fn head(&self) -> u8
        ensures { result ≡ head_of self.now }
    {
        self.seats[0]
    }

    // A seat comes to its tail; a full queue stays as it is.
    #[tactic(auto, unfolding(crate::specs::Queues::joined))]
    pub fn join(&mut self, seat: u8)
        ensures { self.new ≡ joined self.old seat }
    {
        if self.len < SEATS {
            self.seats[self.len] = seat;
            self.len += 1;
        }
    }

    // Its head leaves: those behind it move up, and a zero comes in at the end. An empty queue
    // stays as it is.
    #[tactic(auto, unfolding(crate::specs::Queues::served))]
    pub fn serve(&mut self)
        ensures { self.new ≡ served self.old }
    {
        if self.len != 0 {
            self.seats.copy_within(1.., 0);
            self.seats[SEATS - 1] = 0;
            self.len -= 1;
        }
    }
}
