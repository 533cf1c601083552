// The worked listing of the description, call by call: two seats, eleven steps, each reply on a line of
// its own; then what seat 0 reports and the two cells.
#![tactic(auto)]

use seats::{Table, Tally};
use slots::{CELLS, Cell, number_in};
use std::io;

type Image = [u32; CELLS as usize];

// The seats in the order of their steps.
const ORDER: [u32; 11] = [0, 1, 0, 0, 1, 1, 0, 0, 0, 0, 0];

fn open(
    rt: &impl Print,
    table: &mut Table,
    seat: u32,
    reading: u32,
    frame: &[u8],
) -> io::Result<()> {
    let number = number_in(table::open(table, seat, reading, frame));
    println!(rt; "open: {number}")
}

fn step(rt: &impl Print, table: &mut Table, image: &mut Image, seat: u32) -> io::Result<()> {
    print!(rt; "s {seat} ")?;
    match table::step(table, image, seat) {
        Ok(word) => rt.write_all(word.bytes())?,
        Err(_) => rt.write_all(b"no")?,
    }
    rt.write_all(b"\n")
}

// Of a seat that is not ended, zeros.
fn report(rt: &impl Print, table: &Table, seat: u32) -> io::Result<()> {
    let tally = table::result(table, seat).map_or(Tally::NONE, |report| report.tally);
    println!(rt; "restarts: {}", tally.restarts)?;
    println!(rt; "working steps: {}", tally.working)?;
    println!(rt; "slots: {}", tally.slots)
}

fn say_cell(rt: &impl Print, image: &Image, c: u32) -> io::Result<()> {
    let value = table::cell_read(image, Cell(c)).unwrap_or(0);
    println!(rt; "cell {c}: {value}")
}

fn main(rt: HostRuntime) -> io::Result<()> {
    let mut table = Table::fresh();
    let mut image = [0; CELLS as usize];
    let first = b"\x01\x00\x08\x03\x00\x00\x08\x03\x00\x00\x00";
    let second = b"\x01\x00\x08\x03\x00\x00\x00\x03\x00\x00\x08";
    open(&rt, &mut table, 0, 5, first)?;
    open(&rt, &mut table, 1, 7, second)?;
    for seat in ORDER {
        step(&rt, &mut table, &mut image, seat)?;
    }
    report(&rt, &table, 0)?;
    say_cell(&rt, &image, 0)?;
    say_cell(&rt, &image, 8)
}
