// The listing of a sheet.
ghost use Rattle.std.specs.Prelude.{◌≡◌, ◌≤◌, length};
ghost use Rattle.text.specs.Pages.{HasRoom, Adds};
ghost use Rattle.sheet.specs.Lines.{item_of, sheet};
ghost use Rattle.sheet.specs.Listings.{world_after, reply_to, begin, list_from, listing, most_input};
ghost use Rattle.sheet.specs.Turns.{world, ended_by, answered};
ghost use Rattle.sheet.specs.Calls.{said_listed, listed, destination};

use crate::cells::put_cells;
use crate::lines::{Line, read_line};
use crate::replies::{endings, put_bad, put_end, put_open, put_step};
use slots::{CELLS, Refusal};
use text::{Page, cut, read_hex};
use upkeep::SoundTable;

// The most bytes that a sheet has, and that a listing has.
pub const MOST_INPUT: usize = 65536;

pub const MOST_LISTING: usize = 420000;

// The most bytes that a frame in a sheet has.
const MOST_FRAME: usize = 32768;

// What the lines change, and room for a frame. The table is fresh at first and every call keeps it
// sound, so it is never tested: what is written is nevertheless what the public calls would answer.
#[derive(Drop)]
struct World {
    table: SoundTable,
    image: [u32; CELLS as usize],
    frame: [u8; MOST_FRAME],
}

impl World {
    // What the line l says, where it is not bad: how many transactions it ended. It knows no line
    // number, so that `?` leaves it at each way in which a line is bad; `take_line` does.
    #[tactic(auto, using(crate::proofs::ListItems::finding), unfolding(crate::specs::Lines::is_bad, crate::specs::Listings::reply_to, crate::specs::Listings::world_after, crate::specs::Listings::opened, crate::specs::Listings::stepped, crate::specs::Turns::ended_by, crate::specs::Turns::answered))]
    fn follow(&mut self, page: &mut Page, l: &[u8]) -> Option<u32>
        requires room { HasRoom page.old (answered (world self.old.table self.old.image) (item_of l.now)) }
        requires short { length l.now ≤ most_input }
        ensures ended { result ≡ ended_by (world self.old.table self.old.image) (item_of l.now) }
        ensures reply { Adds page.old page.new (answered (world self.old.table self.old.image) (item_of l.now)) }
        ensures table { self.new.table ≡ (world_after (world self.old.table self.old.image) (item_of l.now)).table }
        ensures image { self.new.image ≡ (world_after (world self.old.table self.old.image) (item_of l.now)).image }
    {
        match read_line(l)? {
            Line::Open(seat, reading, at) => {
                let k = read_hex(l.get(at..)?, &mut self.frame)?;
                let answer = self.table.open(seat, reading, &self.frame[..k]);
                put_open(page, seat, answer);
                Some(0)
            }
            Line::Step(seat) => {
                let answer = self.table.step(&mut self.image, seat);
                put_step(page, seat, answer);
                Some(endings(answer))
            }
        }
    }

    // The line l, whose number is n: how many transactions it ended, none for a bad line.
    #[tactic(auto, using(crate::proofs::ListLine::replying))]
    fn take_line(&mut self, page: &mut Page, l: &[u8], n: u32) -> Option<u32>
        requires room { HasRoom page.old (reply_to n (world self.old.table self.old.image) (item_of l.now)) }
        requires short { length l.now ≤ most_input }
        ensures ended { result ≡ ended_by (world self.old.table self.old.image) (item_of l.now) }
        ensures reply { Adds page.old page.new (reply_to n (world self.old.table self.old.image) (item_of l.now)) }
        ensures table { self.new.table ≡ (world_after (world self.old.table self.old.image) (item_of l.now)).table }
        ensures image { self.new.image ≡ (world_after (world self.old.table self.old.image) (item_of l.now)).image }
    {
        let ended = self.follow(page, l);
        if ended.is_none() {
            put_bad(page, n);
        }
        ended
    }
}

// The lines of s, and behind them the cells and the count.
fn list_lines(s: &[u8], page: &mut Page)
    requires short { length s.now ≤ most_input }
    requires room { HasRoom page.old (list_from 1 begin (sheet s.now)) }
    ensures { Adds page.old page.new (list_from 1 begin (sheet s.now)) }
{
    let mut world = World {
        table: SoundTable::fresh(),
        image: [0; CELLS as usize],
        frame: [0; MOST_FRAME],
    };
    let mut ended = 0;
    let mut n = 1;
    // Down the bytes that are left: a line feed at the end is no empty line, as `split` would have it.
    let mut rest = s;
    while !rest.is_empty() {
        let (l, others) = cut(rest, b'\n');
        let Some(e) = world.take_line(page, l, n) else {
            return;
        };
        ended += e;
        n += 1;
        rest = others;
    }
    put_cells(page, &world.image);
    put_end(page, ended);
}

// The header, and behind it the lines of a sheet that is not too long.
#[tactic(auto, using(crate::proofs::Putting::putting), unfolding(crate::specs::Listings::listing, crate::specs::Words::header))]
fn put_listing(input: &[u8], page: &mut Page)
    requires { HasRoom page.old (listing input.now) }
    ensures { Adds page.old page.new (listing input.now) }
{
    page.put(b"wear-run 1\n");
    if MOST_INPUT < input.len() {
        put_bad(page, 0);
    } else {
        list_lines(input, page);
    }
}

// The listing of the sheet, at the front of dst. Refusal 14: dst is shorter than the longest
// listing.
#[tactic(auto, using(crate::proofs::ListWhole::wholly), unfolding(crate::specs::Calls::listed, crate::specs::Calls::destination))]
pub fn list_sheet(input: &[u8], dst: &mut [u8]) -> Result<usize, Refusal>
    ensures answer { said_listed result ≡ listed input.now (length dst.old) }
    ensures destination { dst.new ≡ destination input.now dst.old }
{
    if dst.len() < MOST_LISTING {
        return Err(Refusal::DestinationTooShort);
    }
    let mut page = Page { dst, at: 0 };
    put_listing(input, &mut page);
    Ok(page.at)
}
