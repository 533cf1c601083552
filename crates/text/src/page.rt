// Writing to a destination, one piece behind the other.
ghost use Rattle.std.specs.Prelude.{◌≡◌};
ghost use Rattle.text.specs.Decimal.{digits};
ghost use Rattle.text.specs.Pages.{put, next};

use itoa::Buffer;

// A lent destination, and the place up to which it is written. No invariant says that the place is
// within dst: both fields are public, and at a place behind the end `put` writes nothing.
#[derive(Drop)]
pub struct Page<'a> {
    pub dst: &'a mut [u8],
    pub at: usize,
}

impl<'a> Page<'a> {
    // The bytes s. Where they do not fit nothing is written.
    #[tactic(auto, unfolding(crate::specs::Pages::next, crate::specs::Pages::put, crate::specs::Pages::fits))]
    pub fn put(&mut self, s: &[u8])
        ensures same_reference { self.new.dst.ghost_name ≡ self.old.dst.ghost_name }
        ensures place { self.new.at ≡ next self.old.dst.now self.old.at s.now }
        ensures bytes { self.new.dst.now ≡ put self.old.dst.now self.old.at s.now }
    {
        if self.dst.len() < self.at || self.dst.len() - self.at < s.len() {
            return;
        }
        let end = self.at + s.len();
        self.dst[self.at..end].copy_from_slice(s);
        self.at = end;
    }

    // The decimal digits of n, in the same way. One or two, such as seats and refusals have, without the buffer:
    // with it they take up to twice the time. (The casts fit: each value is below 10 there.)
    #[tactic(auto, using(crate::proofs::Digits::decimal_digits, crate::proofs::Digits::digits_one, crate::proofs::Digits::digits_two))]
    pub fn put_u32(&mut self, n: u32)
        ensures same_reference { self.new.dst.ghost_name ≡ self.old.dst.ghost_name }
        ensures place { self.new.at ≡ next self.old.dst.now self.old.at (digits n) }
        ensures bytes { self.new.dst.now ≡ put self.old.dst.now self.old.at (digits n) }
    {
        if n < 10 {
            self.put(&[b'0' + n as u8]);
        } else if n < 100 {
            self.put(&[b'0' + (n / 10) as u8, b'0' + (n % 10) as u8]);
        } else {
            let mut buffer = Buffer::new();
            self.put(buffer.format(n).as_bytes());
        }
    }
}
