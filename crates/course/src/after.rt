// What a case does to the seat, to the slot table and to the image. That a seat `Fits` is asked of a
// step and not kept in a type: a seat that is handed in may break it, and after a step the six rules
// are what says it again.
ghost use Rattle.std.specs.Prelude.{◌≡◌, ◌≤◌};
ghost use Rattle.seats.specs.Seats.{most_restarts, most_working};
ghost use Rattle.runs.specs.Runs.{after_act};
ghost use Rattle.course.specs.Wants.{act_at};
ghost use Rattle.course.specs.Steps.{goes_on, restarted, ended, seat_after, slots_after, image_after, Fits};

use crate::Case;
use crate::wants::instr_at;
use runs::{carry_out, write_kept};
use seats::{Phase, Run, Seat, SlotTable};
use slots::{Slot, SlotSet};

// The seat goes on with this pending, and a step more has been worked.
fn go_on(z: &mut Seat, pending: SlotSet)
    requires { z.old.tally.working ≤ most_working }
    ensures { z.new ≡ goes_on z.old z.old.run pending }
{
    z.pending = pending;
    z.tally.working += 1;
}

// The same, and it carries out its instruction.
#[tactic(auto, unfolding(crate::specs::Wants::act_at))]
fn run_on(z: &mut Seat, image: &[u32])
    requires { Fits z.old }
    ensures { z.new ≡ goes_on z.old (after_act (act_at z.old) image.now z.old.run) z.old.pending }
{
    let x = instr_at(z);
    carry_out(&mut z.run, x, image);
    go_on(z, z.pending);
}

#[tactic(auto, unfolding(crate::specs::Steps::restarted))]
fn restart(z: &mut Seat, held: SlotSet, s: Slot)
    requires working { z.old.tally.working ≤ most_working }
    requires restarts { z.old.tally.restarts ≤ most_restarts }
    ensures { z.new ≡ restarted z.old held s.0 }
{
    go_on(z, held.above(s).with(s));
    z.run = Run::opened(z.run.reading);
    z.tally.restarts += 1;
}

#[tactic(auto, unfolding(crate::specs::Steps::ended, seats::specs::Seats::blank_run))]
fn end(z: &mut Seat, held: SlotSet, phase: Phase)
    requires { z.old.tally.working ≤ most_working }
    ensures { z.new ≡ ended z.old held phase }
{
    go_on(z, SlotSet::EMPTY);
    z.phase = phase;
    z.run = Run {
        regs: z.run.regs,
        ..Run::BLANK
    };
    z.tally.slots = held.count();
}

// Where the seat holds `held` and reads this image.
#[tactic(auto, unfolding(crate::specs::Steps::seat_after))]
pub fn change_seat(c: Case, z: &mut Seat, held: SlotSet, image: &[u32])
    requires { Fits z.old }
    ensures { z.new ≡ seat_after c z.old held image.now }
{
    match c {
        Case::Got(s) => go_on(z, z.pending.without(s)),
        Case::Blocked => {}
        Case::Queued(_) => go_on(z, z.pending),
        Case::Committed => end(z, held, Phase::Committed),
        Case::Ran | Case::Took(_) => run_on(z, image),
        Case::Failed => end(z, held, Phase::Failed),
        Case::Restarted(s) => restart(z, held, s),
    }
}

// The case of seat i.
#[tactic(auto, unfolding(crate::specs::Steps::slots_after))]
pub fn change_slots(c: Case, t: &mut SlotTable, i: u8)
    ensures { t.new ≡ slots_after c t.old i }
{
    match c {
        Case::Got(s) | Case::Took(s) => t.take(i, s),
        Case::Queued(s) => t.join(i, s),
        Case::Committed | Case::Failed => t.release(i, t.held_by(i)),
        Case::Restarted(s) => t.release(i, t.held_by(i).above(s)),
        Case::Blocked | Case::Ran => {}
    }
}

// The case of a seat with this run.
#[tactic(auto, unfolding(crate::specs::Steps::image_after))]
pub fn change_image(c: Case, run: &Run, image: &mut [u32])
    ensures { image.new ≡ image_after c run.now image.old }
{
    if let Case::Committed = c {
        write_kept(run, image);
    }
}
