// Rule 1: no slot is owned twice.
ghost use Rattle.std.specs.Prelude.{◌≡◌};
ghost use Rattle.rule_one.specs.Tests.{common, apart};

use seats::SlotTable;
use slots::SlotSet;

// What is in both: by two differences, as the definition has it.
#[tactic(auto, unfolding(crate::specs::Tests::common))]
pub fn common(a: SlotSet, b: SlotSet) -> SlotSet
    ensures { result ≡ common a b }
{
    a.difference(a.difference(b))
}

pub fn held_apart(t: &SlotTable) -> bool
    ensures { result ≡ apart t.now.held }
{
    let mut all = SlotSet::EMPTY;
    for h in t.held.iter().rev() {
        if !common(*h, all).is_empty() {
            return false;
        }
        all = h.union(all);
    }
    true
}
