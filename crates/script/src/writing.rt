// The script writer: a script to the frame at the front of a destination.
ghost use Rattle.std.specs.Prelude.{◌≡◌, ◌*◌, ◌≤◌, ◌++◌, length, drop};
ghost use Rattle.script.specs.Scripts.{max_instructions, instr_bytes, instrs};
ghost use Rattle.script.specs.Frames.{bytes_of, encode, frame_of, frame_bytes, said_written, written, destination};

use crate::{HEAD_BYTES, INSTR_BYTES, Instr, Script, VERSION};
use slots::Refusal;

impl Instr {
    fn bytes(self) -> [u8; INSTR_BYTES]
        ensures { result ≡ bytes_of self }
    {
        [self.op, self.a, self.b, self.c]
    }
}

// The body of a frame, where it has its place. Not through `chunks_exact_mut`: after it a proof
// knows the slice's length and no byte (`returns`).
fn put_body(code: &[Instr], body: &mut [u8])
    requires { length body.old ≡ instr_bytes * length code.now }
    ensures { body.new ≡ encode code.now }
{
    for (i, x) in code.iter().enumerate() {
        let at = INSTR_BYTES * i;
        body[at..at + INSTR_BYTES].copy_from_slice(&x.bytes());
    }
}

// The frame of a script, at the front of dst. `check` has said the bound; a type that said it would shut
// out the scripts of refusal 8.
#[tactic(auto, unfolding(crate::specs::Scripts::instrs))]
fn put_frame(s: &Script, dst: &mut [u8]) -> usize
    requires short { s.now.len ≤ max_instructions }
    requires room { frame_bytes s.now.len ≤ length dst.old }
    ensures bytes { result ≡ frame_bytes s.now.len }
    ensures frame { dst.new ≡ frame_of (instrs s.now) ++ drop (frame_bytes s.now.len) dst.old }
{
    let code = s.instrs();
    let n = INSTR_BYTES * code.len();
    let [.., high, low] = n.to_be_bytes();
    dst[..HEAD_BYTES].copy_from_slice(&[VERSION, high, low]);
    put_body(code, &mut dst[HEAD_BYTES..HEAD_BYTES + n]);
    HEAD_BYTES + n
}

#[tactic(auto, using(crate::proofs::Writer::few))]
pub fn write_script(script: &Script, dst: &mut [u8]) -> Result<usize, Refusal>
    ensures answer { said_written result ≡ written script.now (length dst.old) }
    ensures destination { dst.new ≡ destination script.now dst.old }
{
    script.check()?;
    if dst.len() < HEAD_BYTES + INSTR_BYTES * script.len {
        return Err(Refusal::DestinationTooShort);
    }
    Ok(put_frame(script, dst))
}
