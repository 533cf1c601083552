// Where a piece ends.
ghost use Rattle.std.specs.Prelude.{◌≡◌, length};
ghost use Rattle.text.specs.Pieces.{before, behind};

// How many bytes stand in front of the first b.
pub fn until(s: &[u8], b: u8) -> usize
    ensures { result ≡ length (before b s.now) }
{
    s.iter().position(|&x| x == b).unwrap_or(s.len())
}

// The bytes in front of the first b, and those behind it: all of them and none where there is no b.
#[tactic(auto, using(crate::proofs::Separators::before_part, crate::proofs::Separators::before_length), unfolding(crate::specs::Pieces::behind))]
pub fn cut(s: &[u8], b: u8) -> (&[u8], &[u8])
    ensures front { result.0.now ≡ before b s.now }
    ensures others { result.1.now ≡ behind b s.now }
{
    let n = until(s, b);
    (&s[..n], &s[s.len().min(n + 1)..])
}
