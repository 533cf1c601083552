// The figures at the edges that are run and not proved: each is a line with its name and what came.
// What should have come stands beside it, and a difference is marked.
#![tactic(auto)]

ghost use Rattle.std.specs.Prelude.{◌≤◌};

use script::{HEAD_BYTES, INSTR_BYTES, Script, VERSION, read_script, write_script};
use slots::{Cell, number_in};
use std::io;

// The bytes of a frame of 65 instructions.
const LONGEST: usize = 263;

fn owner(rt: &impl Print, name: &str, cell: u32, expected: u32) -> io::Result<()> {
    tell::figure(
        rt,
        name.as_bytes(),
        number_in(slots::owner(Cell(cell))),
        expected,
    )
}

fn owners(rt: &impl Print) -> io::Result<()> {
    owner(rt, "owner of cell 1023", 1023, 0)?;
    owner(rt, "owner of cell 1024", 1024, 10)?;
    owner(rt, "owner of cell 4294967295", 4294967295, 10)
}

fn read(rt: &impl Print, name: &str, frame: &[u8], expected: u32) -> io::Result<()> {
    tell::figure(rt, name.as_bytes(), number_in(read_script(frame)), expected)
}

fn frames(rt: &impl Print) -> io::Result<()> {
    read(rt, "frame of 2 bytes", b"\x01\x00", 7)?;
    read(rt, "frame 010000", b"\x01\x00\x00", 0)?;
    read(rt, "frame 020000", b"\x02\x00\x00", 7)?;
    read(rt, "frame 010001 with one byte", b"\x01\x00\x01\x01", 7)?;
    read(
        rt,
        "frame 010004 with three bytes",
        b"\x01\x00\x04\x01\x00\x00",
        7,
    )?;
    read(
        rt,
        "skip to position k",
        b"\x01\x00\x08\x08\x00\x01\x01\x01\x00\x00\x00",
        0,
    )?;
    read(
        rt,
        "skip one further",
        b"\x01\x00\x08\x08\x00\x01\x02\x01\x00\x00\x00",
        9,
    )?;
    read(rt, "op 2 of cell 1023", b"\x01\x00\x04\x02\x00\x03\xff", 0)?;
    read(rt, "op 2 of cell 1024", b"\x01\x00\x04\x02\x00\x04\x00", 9)?;
    read(rt, "register 7", b"\x01\x00\x04\x06\x07\x07\x00", 0)?;
    read(rt, "register 8", b"\x01\x00\x04\x06\x07\x08\x00", 9)?;
    read(
        rt,
        "an unused byte that is not zero",
        b"\x01\x00\x04\x06\x07\x07\x01",
        9,
    )
}

// The frame of k instructions, each `op 0 0 0`.
fn read_repeated(rt: &impl Print, name: &str, op: u8, k: usize, expected: u32) -> io::Result<()>
    requires { k ≤ 65 }
{
    let mut room = [0; LONGEST];
    let frame = &mut room[..HEAD_BYTES + INSTR_BYTES * k];
    let [.., high, low] = (INSTR_BYTES * k).to_be_bytes();
    frame[..HEAD_BYTES].copy_from_slice(&[VERSION, high, low]);
    for instr in frame[HEAD_BYTES..].chunks_exact_mut(INSTR_BYTES) {
        instr[0] = op;
    }
    read(rt, name, frame, expected)
}

fn long_frames(rt: &impl Print) -> io::Result<()> {
    read_repeated(rt, "length 256", 1, 64, 0)?;
    read_repeated(rt, "length 260", 1, 65, 8)?;
    read_repeated(rt, "length 260, no instruction legal", 0, 65, 8)?;
    read_repeated(rt, "length 256, no instruction legal", 0, 64, 9)
}

// The script of two instructions is written to dst, which then holds what is expected.
fn write(
    rt: &impl Print,
    name: &str,
    dst: &mut [u8],
    number: u32,
    expected: &[u8],
) -> io::Result<()> {
    let frame = b"\x01\x00\x08\x03\x00\x00\x08\x03\x00\x00\x00";
    let script = read_script(frame).unwrap_or(Script::BLANK);
    tell::figure(
        rt,
        name.as_bytes(),
        number_in(write_script(&script, dst)),
        number,
    )?;
    tell::part(rt, b"the destination", dst, expected)
}

fn written(rt: &impl Print) -> io::Result<()> {
    write(
        rt,
        "written to one byte too few",
        &mut [7; 10],
        14,
        b"\x07\x07\x07\x07\x07\x07\x07\x07\x07\x07",
    )?;
    write(
        rt,
        "written to twelve bytes",
        &mut [7; 12],
        0,
        b"\x01\x00\x08\x03\x00\x00\x08\x03\x00\x00\x00\x07",
    )
}

fn main(rt: HostRuntime) -> io::Result<()> {
    owners(&rt)?;
    frames(&rt)?;
    long_frames(&rt)?;
    written(&rt)
}
