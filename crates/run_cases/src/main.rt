// Reads a sheet from standard input and writes its listing. The gate runs a program on one input, so
// this is `run` once more, for another.
#![tactic(auto)]

use std::io;

fn main(rt: HostRuntime) -> io::Result<()> {
    filter::run(&rt)
}
