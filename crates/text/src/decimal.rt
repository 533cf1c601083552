// Decimal numbers of 32 bits.
ghost use Rattle.std.specs.Prelude.{◌≡◌};
ghost use Rattle.text.specs.Decimal.{number_in};

// The number that the whole of s is. Not by `parse`, which takes a plus sign and zeros in front.
#[tactic(auto, using(crate::proofs::Readings::reading), unfolding(crate::specs::Decimal::value_of))]
pub fn read_number(s: &[u8]) -> Option<u32>
    ensures { result ≡ number_in s.now }
{
    if let [] | [b'0', _, ..] = s {
        return None;
    }
    let mut value: u32 = 0;
    for &b in s {
        if !b.is_ascii_digit() {
            return None;
        }
        value = value.checked_mul(10)?.checked_add(u32::from(b - b'0'))?;
    }
    Some(value)
}
