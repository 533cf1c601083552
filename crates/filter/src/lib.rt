// The sheet program, as a filter: a sheet in, its listing out. Nothing is decided here: what is
// written is what `sheet::list_sheet` makes of the bytes that were read.
#![tactic(auto)]

ghost use Rattle.std.specs.Io.{ReadsAtMost};

use sheet::{MOST_INPUT, MOST_LISTING};
use std::io;
use std::io::Read;

// One byte more than a sheet may have is read, so that a longer one shows.
pub fn run(rt: &(impl Input + Print)) -> io::Result<()> {
    let mut input = [0; MOST_INPUT + 1];
    let n = read_full(&mut rt.reader(), &mut input)?;
    let mut listing = [0; MOST_LISTING];
    let len = sheet::list_sheet(&input[..n], &mut listing).unwrap();
    rt.write_all(&listing[..len])
}

// Reads until `buf` is full or the input ends, and returns how many bytes it put at its front. One
// read may give fewer bytes than there are, and `read_to_end` would need a `Vec`.
fn read_full<R: Read>(from: &mut R, buf: &mut [u8]) -> io::Result<usize>
    ensures { ReadsAtMost result buf.new }
{
    let mut done = 0;
    while done < buf.len() {
        let n = from.read(&mut buf[done..])?;
        if n == 0 {
            break;
        }
        done += n;
    }
    Ok(done)
}
