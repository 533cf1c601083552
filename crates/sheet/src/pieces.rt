// Bytes and numbers, one behind the other, on a page where there is room for them.
ghost use Rattle.std.specs.Prelude.{◌++◌};
ghost use Rattle.text.specs.Decimal.{digits};
ghost use Rattle.text.specs.Pages.{HasRoom, Adds};
ghost use Rattle.sheet.specs.Listings.{line};

use text::Page;

// The bytes s and the digits of n.
#[tactic(auto, using(crate::proofs::Putting::putting))]
pub fn put_number(page: &mut Page, s: &[u8], n: u32)
    requires { HasRoom page.old (s.now ++ digits n) }
    ensures { Adds page.old page.new (s.now ++ digits n) }
{
    page.put(s);
    page.put_u32(n);
}

// The same, and the end of the line.
#[tactic(auto, using(crate::proofs::Putting::putting))]
pub fn put_line(page: &mut Page, s: &[u8], n: u32)
    requires { HasRoom page.old (line (s.now ++ digits n)) }
    ensures { Adds page.old page.new (line (s.now ++ digits n)) }
{
    put_number(page, s, n);
    page.put(b"\n");
}
