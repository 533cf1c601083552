// The run of a seat: what it reads, the writes that it keeps, and what an instruction makes of it.
#![tactic(auto)]

ghost use Rattle.std.specs.Prelude.{◌≡◌, ◌≤◌};
ghost use Rattle.script.specs.Scripts.{max_instructions};
ghost use Rattle.script.specs.Meaning.{act_of};
ghost use Rattle.runs.specs.Runs.{kept_writes, value_after, seen, keeping, after_act, written};

use script::{Access, Instr, MAX_INSTRUCTIONS, set_register};
use seats::{Run, Write};
use slots::Cell;

// A cell after the kept writes, where it was v: the latest wins.
#[tactic(auto, unfolding(crate::specs::Runs::kept_writes))]
fn value_after(run: &Run, c: Cell, v: u32) -> u32
    ensures { result ≡ value_after (kept_writes run.now) c.0 v }
{
    run.kept_writes()
        .iter()
        .fold(v, |value, w| if w.cell == c { w.value } else { value })
}

// A cell as the seat sees it.
#[tactic(auto, unfolding(crate::specs::Runs::seen))]
fn seen(run: &Run, image: &[u32], c: Cell) -> u32
    ensures { result ≡ seen run.now image.now c.0 }
{
    let v = image.get(usize::from(c)).copied().unwrap_or(0);
    value_after(run, c, v)
}

// One more write is kept. Here and in `write_kept` not by `get_mut`: after it a proof knows how long
// an array is, and not what is in it (tried: `returns`, `loop-w-preserved` stayed open).
#[tactic(auto, unfolding(crate::specs::Runs::keeping))]
fn keep(run: &mut Run, c: Cell, value: u32)
    requires position { run.old.at ≤ max_instructions }
    requires kept { run.old.kept ≤ max_instructions }
    ensures { run.new ≡ keeping run.old c.0 value }
{
    if run.kept < MAX_INSTRUCTIONS {
        run.writes[run.kept] = Write { cell: c, value };
    }
    run.kept += 1;
    run.at += 1;
}

// An instruction is carried out. The bounds are `Fits` of course, which says why it is no type.
pub fn carry_out(run: &mut Run, x: Instr, image: &[u32])
    requires position { run.old.at ≤ max_instructions }
    requires kept { run.old.kept ≤ max_instructions }
    ensures { run.new ≡ after_act (act_of x run.old.regs) image.now run.old }
{
    match x.access(&run.regs) {
        None => run.at += 1 + x.local(&mut run.regs),
        Some(Access::Reads(a, c)) => {
            let v = seen(run, image, c);
            set_register(&mut run.regs, a, v);
            run.at += 1;
        }
        Some(Access::Writes(c, value)) => keep(run, c, value),
    }
}

// The kept writes go to the image, one after the other.
#[tactic(auto, unfolding(crate::specs::Runs::written, crate::specs::Runs::kept_writes))]
pub fn write_kept(run: &Run, image: &mut [u32])
    ensures { image.new ≡ written (kept_writes run.now) image.old }
{
    for w in run.kept_writes() {
        let i = usize::from(w.cell);
        if i < image.len() {
            image[i] = w.value;
        }
    }
}
