// The lines of a listing, written on a page where there is room for them.
ghost use Rattle.std.specs.Prelude.{◌≡◌};
ghost use Rattle.slots.specs.Refusals.{number_in};
ghost use Rattle.table.specs.Answers.{word_in};
ghost use Rattle.text.specs.Pages.{HasRoom, Adds};
ghost use Rattle.sheet.specs.Listings.{open_line, step_line, end_line, bad_line, endings};

use crate::pieces::{put_line, put_number};
use crate::words::put_reply;
use course::Word;
use slots::{Refusal, number_in};
use text::Page;

// `o seat number`.
#[tactic(auto, using(crate::proofs::Putting::putting), unfolding(crate::specs::Listings::open_line))]
pub fn put_open(page: &mut Page, seat: u32, answer: Result<(), Refusal>)
    requires { HasRoom page.old (open_line seat (number_in answer)) }
    ensures { Adds page.old page.new (open_line seat (number_in answer)) }
{
    put_number(page, b"o ", seat);
    put_line(page, b" ", number_in(answer));
}

// `s seat word`, or `s seat no number`.
#[tactic(auto, using(crate::proofs::Putting::putting), unfolding(crate::specs::Listings::step_line))]
pub fn put_step(page: &mut Page, seat: u32, answer: Result<Word, Refusal>)
    requires { HasRoom page.old (step_line seat (number_in answer) (word_in answer)) }
    ensures { Adds page.old page.new (step_line seat (number_in answer) (word_in answer)) }
{
    put_number(page, b"s ", seat);
    put_reply(page, answer);
}

// `e` and how many transactions ended.
#[tactic(auto, unfolding(crate::specs::Listings::end_line))]
pub fn put_end(page: &mut Page, ended: u32)
    requires { HasRoom page.old (end_line ended) }
    ensures { Adds page.old page.new (end_line ended) }
{
    put_line(page, b"e ", ended);
}

// `bad` and the line's number.
#[tactic(auto, unfolding(crate::specs::Listings::bad_line))]
pub fn put_bad(page: &mut Page, n: u32)
    requires { HasRoom page.old (bad_line n) }
    ensures { Adds page.old page.new (bad_line n) }
{
    put_line(page, b"bad ", n);
}

// How many transactions the answer ended.
#[tactic(auto, unfolding(crate::specs::Listings::endings))]
pub fn endings(answer: Result<Word, Refusal>) -> u32
    ensures { result ≡ endings (word_in answer) }
{
    u32::from(matches!(answer, Ok(Word::Committed | Word::Failed)))
}
