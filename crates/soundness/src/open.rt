// Rules 2 to 5, of an open seat.
ghost use Rattle.std.specs.Prelude.{◌≡◌, true, cond, ◌≤◌};
ghost use Rattle.slots.specs.Sizes.{slots};
ghost use Rattle.slots.specs.Owners.{listed};
ghost use Rattle.script.specs.Scripts.{max_instructions};
ghost use Rattle.course.specs.Wants.{want_of, slot_of};
ghost use Rattle.soundness.specs.Tests.{cell_held, kept_test, place_test, at_opening, pending_test, wait_test, restarts_test, working_test, count_test, open_test};

use course::want_of;
use rule_one::common;
use seats::{Run, Seat};
use slots::{CELLS, Cell, OwnerList, SLOTS, Slot, SlotSet, listed};

#[tactic(auto, unfolding(crate::specs::Tests::cell_held))]
fn cell_held(held: SlotSet, c: Cell, owners: &OwnerList) -> bool
    ensures { result ≡ cell_held (listed owners.now) held c.0 }
{
    c.0 < CELLS && held.has(listed(owners, c))
}

// Rule 2: the kept writes go to cells whose slots are held. (By `run.kept_writes()` one part of
// `returns` stays open, `length run.now.writes ≡ max_instructions`: behind a reference to a struct no
// proof knows how long an array is, and the contract of `kept_writes` does not say it.)
fn kept_sound(run: &Run, held: SlotSet, owners: &OwnerList) -> bool
    requires { run.now.kept ≤ max_instructions }
    ensures { result ≡ kept_test (listed owners.now) run.now held }
{
    run.writes
        .iter()
        .take(run.kept)
        .all(|w| cell_held(held, w.cell, owners))
}

// Rule 2.
#[tactic(auto, using(crate::proofs::Bounds::ok_by_number, crate::proofs::Bounds::checked_short), unfolding(crate::specs::Tests::place_test))]
fn place_sound(z: &Seat, held: SlotSet, owners: &OwnerList) -> bool
    ensures { result ≡ place_test (listed owners.now) z.now held }
{
    z.script.check().is_ok()
        && z.run.at <= z.script.len
        && z.run.kept <= z.run.at
        && kept_sound(&z.run, held, owners)
}

#[tactic(auto, unfolding(crate::specs::Tests::at_opening))]
fn at_opening(run: &Run) -> bool
    ensures { result ≡ at_opening run.now }
{
    run.at == 0 && run.kept == 0 && run.regs == Run::opened(run.reading).regs
}

// Rule 3.
#[tactic(auto, unfolding(crate::specs::Tests::pending_test))]
fn pending_sound(run: &Run, held: SlotSet, pending: SlotSet) -> bool
    ensures { result ≡ pending_test run.now held pending }
{
    if pending.is_empty() {
        return true;
    }
    let s = pending.smallest();
    at_opening(run) && held.above(s).is_empty() && common(held, pending).without(s).is_empty()
}

// Rule 4, of a seat that is queued: for the slot s that it wants, if `here` says so.
#[tactic(auto, unfolding(crate::specs::Tests::wait_test))]
fn wait_sound(here: bool, held: SlotSet, s: Slot) -> bool
    ensures { result ≡ wait_test true here held s.0 }
{
    here && !held.has(s) && held.above(s).is_empty()
}

#[tactic(auto, unfolding(crate::specs::Tests::restarts_test))]
fn restarts_sound(restarts: u32, l: u32) -> bool
    ensures { result ≡ restarts_test restarts l }
{
    restarts == 0 || restarts < l
}

// The seven numbers of rule 5 by its letters, as the definition has them.
#[tactic(auto, unfolding(crate::specs::Tests::working_test))]
fn working_sound(r: u32, w: u32, k: usize, at: usize, p: u32, l: u32, q: bool) -> bool
    requires restarts { r ≤ slots }
    requires instructions { k ≤ max_instructions }
    requires position { at ≤ max_instructions }
    requires pending { p ≤ slots }
    requires all { l ≤ slots }
    ensures { result ≡ working_test r w k at p l (cond q 1 0) }
{
    let (r, w, p, l) = (u64::from(r), u64::from(w), u64::from(p), u64::from(l));
    let rl = r * l;
    // No `From` leads from `usize` to `u64`.
    w + 2 * p <= r * k as u64 + at as u64 + l + 2 * rl + u64::from(q)
}

// Rule 5. The two bounds are asked and kept in no type: rule 2, which is tested first, says them, and
// those of `working_sound` keep its sum within 64 bits.
#[tactic(auto, using(crate::proofs::Bounds::restarts_few, slots::proofs::Counting::size_le), unfolding(crate::specs::Tests::count_test))]
fn count_sound(z: &Seat, held: SlotSet, queued: SlotSet) -> bool
    requires instructions { z.now.script.len ≤ max_instructions }
    requires position { z.now.run.at ≤ max_instructions }
    ensures { result ≡ count_test z.now.tally z.now.script.len z.now.run.at held z.now.pending queued }
{
    let l = held.union(z.pending).union(queued).count();
    let q = held.union(queued).has(z.pending.smallest());
    let (r, w) = (z.tally.restarts, z.tally.working);
    restarts_sound(r, l) && working_sound(r, w, z.script.len, z.run.at, z.pending.count(), l, q)
}

// The slot that a seat wants, or one that is not there: nobody waits for that one. (An `Option` in
// its place leaves `returns-in_default` of `open_sound` open, which is asked for any `here`.)
pub fn wanted(z: &Seat, owners: &OwnerList) -> Slot
    ensures { result.0 ≡ slot_of (want_of (listed owners.now) z.now) }
{
    want_of(z, owners).slot().unwrap_or(Slot(SLOTS))
}

// Whether the seat waits at all, and `here` for the slot it wants: asked of a queued seat alone, as
// the definition's test has it.
#[tactic(auto, using(crate::proofs::Bounds::placed), unfolding(crate::specs::Tests::open_test, crate::specs::Tests::wait_test, crate::specs::Tests::queued_set))]
pub fn open_sound(z: &Seat, held: SlotSet, queued: bool, here: bool, owners: &OwnerList) -> bool
    ensures { result ≡ open_test (listed owners.now) z.now held queued here }
{
    if !place_sound(z, held, owners) || !pending_sound(&z.run, held, z.pending) {
        return false;
    }
    let s = wanted(z, owners);
    if queued && !wait_sound(here, held, s) {
        return false;
    }
    let queued = if queued {
        SlotSet::EMPTY.with(s)
    } else {
        SlotSet::EMPTY
    };
    count_sound(z, held, queued)
}
