// Sets of slots. A method takes the set by value and hands back the new one: the caller's old set
// stays as it was. No method has a condition on what it is given: a slot above 63 is in no set, is
// added to none, and has no slot above it; the empty set's smallest is 64.
ghost use Rattle.std.specs.Prelude.{◌≡◌};
ghost use Rattle.slots.specs.Sets.{none, has, adding, removing, above, union, difference, is_empty, size, smallest, slot};

use crate::{SLOTS, Slot};

// One binary digit for each slot.
#[derive(Clone, Copy, Debug, Default, PartialEq, Eq, Hash)]
pub struct SlotSet(pub u64);

impl SlotSet {
    pub const EMPTY: SlotSet = SlotSet(0);

    pub fn empty() -> SlotSet
        ensures { result ≡ none }
    {
        SlotSet::EMPTY
    }

    pub fn has(self, s: Slot) -> bool
        ensures { result ≡ has self s.0 }
    {
        s.0 < SLOTS && self.0 >> s.0 & 1 == 1
    }

    pub fn with(self, s: Slot) -> SlotSet
        ensures { result ≡ adding self s.0 }
    {
        if s.0 < SLOTS {
            SlotSet(self.0 | 1 << s.0)
        } else {
            self
        }
    }

    pub fn without(self, s: Slot) -> SlotSet
        ensures { result ≡ removing self s.0 }
    {
        if s.0 < SLOTS {
            SlotSet(self.0 & !(1 << s.0))
        } else {
            self
        }
    }

    // The members greater than s.
    pub fn above(self, s: Slot) -> SlotSet
        ensures { result ≡ above self s.0 }
    {
        if s.0 < SLOTS - 1 {
            SlotSet(self.0 >> (s.0 + 1) << (s.0 + 1))
        } else {
            SlotSet::EMPTY
        }
    }

    pub fn union(self, other: SlotSet) -> SlotSet
        ensures { result ≡ union self other }
    {
        SlotSet(self.0 | other.0)
    }

    pub fn difference(self, other: SlotSet) -> SlotSet
        ensures { result ≡ difference self other }
    {
        SlotSet(self.0 & !other.0)
    }

    pub fn is_empty(self) -> bool
        ensures { result ≡ is_empty self }
    {
        self.0 == 0
    }

    pub fn count(self) -> u32
        ensures { result ≡ size self }
    {
        self.0.count_ones()
    }

    // 64 of the empty set: so say trailing zeros, the form that the description names, and the definition.
    pub fn smallest(self) -> Slot
        ensures { result ≡ slot (smallest self) }
    {
        Slot(self.0.trailing_zeros())
    }
}
