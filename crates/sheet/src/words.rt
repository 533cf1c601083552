// What follows the seat in the line of a step.
ghost use Rattle.std.specs.Prelude.{◌∷◌};
ghost use Rattle.slots.specs.Refusals.{number_in};
ghost use Rattle.table.specs.Answers.{word_in};
ghost use Rattle.text.specs.Pages.{HasRoom, Adds};
ghost use Rattle.sheet.specs.Lines.{space};
ghost use Rattle.sheet.specs.Listings.{line, reply_bytes};

use crate::pieces::put_line;
use course::Word;
use slots::Refusal;
use text::Page;

// A space, the word or `no number`, and the end of the line.
#[tactic(auto, using(crate::proofs::Putting::putting, slots::proofs::Answers::no_number), unfolding(crate::specs::Listings::reply_bytes))]
pub fn put_reply(page: &mut Page, answer: Result<Word, Refusal>)
    requires { HasRoom page.old (space ∷ line (reply_bytes (number_in answer) (word_in answer))) }
    ensures { Adds page.old page.new (space ∷ line (reply_bytes (number_in answer) (word_in answer))) }
{
    match answer {
        Ok(word) => {
            page.put(b" ");
            page.put(word.bytes());
            page.put(b"\n");
        }
        Err(r) => put_line(page, b" no ", u32::from(r)),
    }
}
