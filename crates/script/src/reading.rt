// The script reader: the bytes of a frame to a script.
ghost use Rattle.std.specs.Prelude.{◌≡◌, ◌*◌, ◌≤◌, length};
ghost use Rattle.script.specs.Scripts.{max_instructions, instr_bytes, blank_script, script_of};
ghost use Rattle.script.specs.Frames.{is_frame, instr_at, decode, said_read, read_script};

use crate::{HEAD_BYTES, INSTR_BYTES, Instr, MAX_INSTRUCTIONS, Script, VERSION, word};
use slots::Refusal;

#[tactic(auto, unfolding(crate::specs::Frames::is_frame))]
fn is_frame(f: &[u8]) -> bool
    ensures { result ≡ is_frame f.now }
{
    if f.len() < HEAD_BYTES {
        return false;
    }
    let n = f.len() - HEAD_BYTES;
    f[0] == VERSION && usize::from(word(f[1], f[2])) == n && n % INSTR_BYTES == 0
}

// The instruction whose bytes these are.
#[tactic(auto, unfolding(crate::specs::Frames::instr_at))]
fn instr_in(bytes: &[u8]) -> Instr
    requires { instr_bytes ≤ length bytes.now }
    ensures { result ≡ instr_at bytes.now 0 }
{
    Instr {
        op: bytes[0],
        a: bytes[1],
        b: bytes[2],
        c: bytes[3],
    }
}

// The k instructions of a frame's body, in a blank script that is lent: one that came back by value would be
// copied once more. Not through `iter_mut` and `zip`: after them a proof knows the array's length and no
// instruction (`returns`).
fn script_in(script: &mut Script, body: &[u8], k: usize)
    requires blank { script.old ≡ blank_script }
    requires short { k ≤ max_instructions }
    requires whole { length body.now ≡ instr_bytes * k }
    ensures { script.new ≡ script_of (decode body.now) }
{
    script.len = k;
    for (i, bytes) in body.chunks_exact(INSTR_BYTES).enumerate() {
        script.code[i] = instr_in(bytes);
    }
}

#[tactic(auto, using(crate::proofs::Reader::framed, crate::proofs::Reader::whole, crate::proofs::Reader::read_none, crate::proofs::Reader::read_long))]
pub fn read_script(frame: &[u8]) -> Result<Script, Refusal>
    ensures { said_read result ≡ read_script frame.now }
{
    if !is_frame(frame) {
        return Err(Refusal::NoFrame);
    }
    let body = &frame[HEAD_BYTES..];
    let k = body.len() / INSTR_BYTES;
    if MAX_INSTRUCTIONS < k {
        return Err(Refusal::TooManyInstrs);
    }
    let mut script = Script::blank();
    script_in(&mut script, body, k);
    script.check()?;
    Ok(script)
}
