// Which case a step is.
ghost use Rattle.std.specs.Prelude.{◌≡◌};
ghost use Rattle.course.specs.Words.{said_word, word_bytes};
ghost use Rattle.course.specs.Cases.{waiting, case_for, word_of};

use crate::Want;
use slots::{Slot, SlotSet};

#[derive(Clone, Copy, Debug, PartialEq, Eq)]
pub enum Case {
    Got(Slot),
    Blocked,
    Queued(Slot),
    Committed,
    Ran,
    Took(Slot),
    Failed,
    Restarted(Slot),
}

// The reply to a step.
#[derive(Clone, Copy, Debug, PartialEq, Eq)]
pub enum Word {
    Got,
    Blocked,
    Queued,
    Committed,
    Ran,
    Failed,
    Restarted,
}

impl Word {
    // As it stands in a listing: the description has byte strings, so there is no `Display` beside it.
    #[tactic(auto, unfolding(crate::specs::Words::word_bytes))]
    pub fn bytes(self) -> &'static [u8]
        ensures { result.now ≡ word_bytes (said_word self) }
    {
        match self {
            Word::Got => b"got",
            Word::Blocked => b"blocked",
            Word::Queued => b"queued",
            Word::Committed => b"committed",
            Word::Ran => b"ran",
            Word::Failed => b"failed",
            Word::Restarted => b"restarted",
        }
    }
}

impl Case {
    #[tactic(auto, unfolding(crate::specs::Cases::word_of))]
    pub fn word(self) -> Word
        ensures { said_word result ≡ word_of self }
    {
        match self {
            Case::Got(_) => Word::Got,
            Case::Blocked => Word::Blocked,
            Case::Queued(_) => Word::Queued,
            Case::Committed => Word::Committed,
            Case::Ran | Case::Took(_) => Word::Ran,
            Case::Failed => Word::Failed,
            Case::Restarted(_) => Word::Restarted,
        }
    }
}

#[tactic(auto, unfolding(crate::specs::Cases::waiting))]
fn waiting(waits: bool, s: Slot) -> Case
    ensures { result ≡ waiting waits s }
{
    if waits {
        Case::Blocked
    } else {
        Case::Queued(s)
    }
}

#[tactic(auto, unfolding(crate::specs::Cases::case_for))]
fn case_back(s: Slot, held: SlotSet, owned: SlotSet, waits: bool) -> Case
    ensures { result ≡ case_for (Want.Back s) held owned waits }
{
    if held.has(s) || !owned.has(s) {
        Case::Got(s)
    } else {
        waiting(waits, s)
    }
}

#[tactic(auto, unfolding(crate::specs::Cases::case_for))]
fn case_access(s: Slot, held: SlotSet, owned: SlotSet, waits: bool) -> Case
    ensures { result ≡ case_for (Want.Access s) held owned waits }
{
    if held.has(s) {
        Case::Ran
    } else if !owned.has(s) {
        Case::Took(s)
    } else if held.above(s).is_empty() {
        waiting(waits, s)
    } else {
        Case::Restarted(s)
    }
}

// Of a seat that holds `held`, where `owned` are the slots that some seat holds, and `waits` says
// that it is in the queue of the slot it wants: the three that the definition's lines ask, as it does.
#[tactic(auto, unfolding(crate::specs::Cases::case_for))]
pub fn case_for(w: Want, held: SlotSet, owned: SlotSet, waits: bool) -> Case
    ensures { result ≡ case_for w held owned waits }
{
    match w {
        Want::Back(s) => case_back(s, held, owned, waits),
        Want::End => Case::Committed,
        Want::Nothing => Case::Ran,
        Want::Access(s) => case_access(s, held, owned, waits),
        Want::NoCell => Case::Failed,
    }
}
