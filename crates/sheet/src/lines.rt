// What a line of a sheet says.
ghost use Rattle.std.specs.Prelude.{◌≡◌};
ghost use Rattle.text.specs.Pieces.{before, behind};
ghost use Rattle.text.specs.Decimal.{number_in};
ghost use Rattle.sheet.specs.Lines.{line_of, opened_line, stepped_line, frame_at, space};

use text::{cut, read_number};

// An opening with its seat, its reading and the place of its frame; a step with its seat. The hex of
// the frame is not read yet. A place and not the rest of the line: `SameItem` speaks of it.
#[derive(Clone, Copy, Debug, PartialEq, Eq)]
pub enum Line {
    Open(u32, u32, usize),
    Step(u32),
}

// The letter and the space in front of a line's numbers.
const LEAD: usize = 2;

// An opening, of which r is what follows the letter and the space.
#[tactic(auto, using(crate::proofs::SheetLines::both_within), unfolding(crate::specs::Lines::opened_line, crate::specs::Lines::frame_at, text::specs::Pieces::behind))]
fn read_opening(r: &[u8]) -> Option<Line>
    ensures { result ≡ opened_line (number_in (before space r.now)) (number_in (before space (behind space r.now)))
        (frame_at r.now) }
{
    let (seat, others) = cut(r, b' ');
    let (reading, _) = cut(others, b' ');
    let at = LEAD + seat.len() + 1 + reading.len() + 1;
    Some(Line::Open(read_number(seat)?, read_number(reading)?, at))
}

// A step, of which r is what follows the letter and the space.
#[tactic(auto, unfolding(crate::specs::Lines::stepped_line))]
fn read_step(r: &[u8]) -> Option<Line>
    ensures { result ≡ stepped_line (number_in r.now) }
{
    read_number(r).map(Line::Step)
}

// What the line l says, without its line feed; none for a line of another shape.
#[tactic(auto, unfolding(crate::specs::Lines::line_of))]
pub fn read_line(l: &[u8]) -> Option<Line>
    ensures { result ≡ line_of l.now }
{
    match l {
        [b'o', b' ', r @ ..] => read_opening(r),
        [b's', b' ', r @ ..] => read_step(r),
        _ => None,
    }
}
