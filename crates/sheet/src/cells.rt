// The lines of the cells.
ghost use Rattle.std.specs.Prelude.{◌≡◌, length};
ghost use Rattle.slots.specs.Sizes.{cells};
ghost use Rattle.text.specs.Pages.{HasRoom, Adds};
ghost use Rattle.sheet.specs.Listings.{cell_line, cell_lines};

use crate::pieces::{put_line, put_number};
use slots::CELLS;
use text::Page;

// `c cell value`, and nothing for the value 0.
#[tactic(auto, using(crate::proofs::Putting::putting), unfolding(crate::specs::Listings::cell_line))]
fn put_cell(page: &mut Page, c: u32, v: u32)
    requires { HasRoom page.old (cell_line c v) }
    ensures { Adds page.old page.new (cell_line c v) }
{
    if v != 0 {
        put_number(page, b"c ", c);
        put_line(page, b" ", v);
    }
}

// `c cell value` for each non-zero cell, rising.
pub fn put_cells(page: &mut Page, image: &[u32])
    requires room { HasRoom page.old (cell_lines 0 image.now) }
    requires whole { length image.now ≡ cells }
    ensures { Adds page.old page.new (cell_lines 0 image.now) }
{
    for (c, v) in (0..CELLS).zip(image) {
        put_cell(page, c, *v);
    }
}
