// Script shelves: the frame that a script number has on the site's shelf, or on the works shelf
// where the site has none.
#![tactic(auto)]

ghost use Rattle.std.specs.Prelude.{◌≡◌, ◌<◌, ◌↔◌, [], length, drop, IsTrue, IsSome, IfSome, IfOk, MatchOption};
ghost use Rattle.slots.specs.Refusals.{number_in};
ghost use Rattle.shelf.specs.Shelves.{entry_number, span, is_whole, frame_in, shelf, is_sound, find, frame_found, lookup_refusal};

use script::{HEAD_BYTES, VERSION, word};
use slots::{Refusal, number_in};

// The bytes of an entry in front of its frame.
pub const NUMBER_BYTES: usize = 2;

// The entry at the front of a shelf: its script number, its frame as it stands, and what is behind.
#[derive(Clone, Copy, Debug, PartialEq, Eq)]
struct Entry<'a> {
    number: u32,
    frame: &'a [u8],
    rest: &'a [u8],
}

// The entry at the front of s, and none where it is cut short or its version is not 1.
#[tactic(auto, unfolding(crate::specs::Shelves::is_whole, crate::specs::Shelves::span, crate::specs::Shelves::entry_number))]
fn first_entry(s: &[u8]) -> Option<Entry<'_>>
    ensures whole { IsSome result ↔ IsTrue (is_whole s.now) }
    ensures number { IfSome result (λ e. e.number ≡ entry_number s.now) }
    ensures frame { IfSome result (λ e. e.frame.now ≡ frame_in s.now) }
    ensures rest { IfSome result (λ e. e.rest.now ≡ drop (span s.now) s.now) }
{
    let [number_high, number_low, version, body_high, body_low, ..] = s else {
        return None;
    };
    if *version != VERSION {
        return None;
    }
    let frame_bytes = HEAD_BYTES + usize::from(word(*body_high, *body_low));
    let (frame, rest) = s[NUMBER_BYTES..].split_at_checked(frame_bytes)?;
    Some(Entry {
        number: u32::from(word(*number_high, *number_low)),
        frame,
        rest,
    })
}

// Both loops take entry after entry off the front. An iterator would have to give damage as an item
// too, an option in an option, and with its ghost members is longer than the two loops (tried).
#[tactic(auto, using(crate::proofs::Entries::turns))]
fn is_sound(s: &[u8]) -> bool
    ensures { result ≡ is_sound (shelf s.now) }
{
    let mut rest = s;
    while !rest.is_empty() {
        let Some(entry) = first_entry(rest) else {
            return false;
        };
        rest = entry.rest;
    }
    true
}

// The frame of the first entry with that number. No frame is empty.
#[tactic(auto, using(crate::proofs::Entries::turns))]
fn frame_on(s: &[u8], number: u32) -> Option<&[u8]>
    ensures { let there = find number (shelf s.now) in MatchOption result (there ≡ []) (λ f. (f.now ≡ there) × (0 < length f.now)) }
{
    let mut rest = s;
    while let Some(entry) = first_entry(rest) {
        if entry.number == number {
            return Some(entry.frame);
        }
        rest = entry.rest;
    }
    None
}

// The frame as it stands on its shelf, or refusal 12 or 13. Both shelves are checked before either
// is searched.
#[tactic(auto, using(crate::proofs::Refused::finding))]
pub fn find<'a>(site: &'a [u8], works: &'a [u8], number: u32) -> Result<&'a [u8], Refusal>
    ensures number { number_in result ≡ lookup_refusal site.now works.now number }
    ensures frame { IfOk result (λ f. f.now ≡ frame_found site.now works.now number) }
{
    if !(is_sound(site) && is_sound(works)) {
        return Err(Refusal::ShelfDamaged);
    }
    frame_on(site, number)
        .or_else(|| frame_on(works, number))
        .ok_or(Refusal::OnNeitherShelf)
}

// The frame as it stands on its shelf, or an empty part: `lookup_refusal` then says why. The description
// has these two, which is why they stand beside `find`, with its three parameters.
#[tactic(auto, using(crate::proofs::Refused::refused_empty))]
pub fn lookup<'a>(site: &'a [u8], works: &'a [u8], number: u32) -> &'a [u8]
    ensures { result.now ≡ frame_found site.now works.now number }
{
    find(site, works, number).unwrap_or(&site[..0])
}

// The number of a lookup: 12, 13, or 0.
pub fn lookup_refusal(site: &[u8], works: &[u8], number: u32) -> u32
    ensures { result ≡ lookup_refusal site.now works.now number }
{
    number_in(find(site, works, number))
}
