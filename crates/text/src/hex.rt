// Lower-case hex.
ghost use Rattle.std.specs.Prelude.{◌<◌, ◌≡◌, true, ◌||◌};
ghost use Rattle.text.specs.Hex.{is_numeral, is_letter, nibble, all_hex, counted, hexed, hexed_into};

// Is b one of 0 to 9 and a to f? Not by `char::to_digit(16)`, which takes upper case too.
fn is_nibble(b: u8) -> bool
    ensures { result ≡ (is_numeral b || is_letter b) }
{
    matches!(b, b'0'..=b'9' | b'a'..=b'f')
}

// Is s hex throughout, two for each byte?
#[tactic(auto, using(crate::proofs::Nibbles::odd_hex))]
fn is_all_hex(s: &[u8]) -> bool
    ensures { result ≡ all_hex s.now }
{
    s.len() % 2 == 0 && s.iter().all(|&b| is_nibble(b))
}

// What b stands for. Here it is known to be a nibble, and `char::to_digit(16)` would give an Option.
#[tactic(auto, using(crate::proofs::Nibbles::worth_numeral, crate::proofs::Nibbles::worth_letter))]
fn nibble_of(b: u8) -> u8
    requires { (is_numeral b || is_letter b) ≡ true }
    ensures worth { result ≡ nibble b }
    ensures small { result < 16 }
{
    match b {
        b'0'..=b'9' => b - b'0',
        _ => b - b'a' + 10,
    }
}

// The bytes that s stands for, at the front of dst: how many they are. None, and dst as it was,
// where s is no hex or dst is too short. Not by the crate `hex`, which takes upper case too.
#[tactic(auto, using(crate::proofs::Nibbles::decoding), unfolding(crate::specs::Hex::hexed, crate::specs::Hex::hexed_into, crate::specs::Hex::can_hex, crate::specs::Hex::is_hex, crate::specs::Hex::counted))]
pub fn read_hex(s: &[u8], dst: &mut [u8]) -> Option<usize>
    ensures count { result ≡ counted (hexed s.now dst.old) }
    ensures bytes { dst.new ≡ hexed_into s.now dst.old }
{
    let count = s.len() / 2;
    if count == 0 || dst.len() < count || !is_all_hex(s) {
        return None;
    }
    for (i, pair) in s.chunks_exact(2).enumerate() {
        // By index: after a `zip` with `dst.iter_mut()` a proof knows no element of dst.
        dst[i] = nibble_of(pair[0]) * 16 + nibble_of(pair[1]);
    }
    Some(count)
}
