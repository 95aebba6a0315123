//! Decimal digits of a number, incremented in place.

ghost use Rattle.std.specs.Prelude.{◌≡◌, ◌+◌, ◌<◌, ◌≤◌, ◌^◌, decimal};
ghost use Rattle.text_lines.specs.Counters.{digits_of};

use crate::written::{Line, push_decimal};

/// The decimal digits of a number. The last digit is separate, because the others are also those of the next number
/// unless that is a multiple of ten.
#[derive(Drop)]
pub struct Counter {
    pub front: [u8; 20],
    /// The number of digits before the last.
    pub len: usize,
    pub last: u8,
}

impl Counter {
    /// Returns the digits of a number.
    pub fn of(n: u64) -> Counter
        ensures digits { digits_of result ≡ decimal n }
        ensures len { result.len ≤ 20 }
    {
        let mut front = [0; 20];
        let last = b'0' + (n % 10) as u8;
        if n < 10 {
            return Counter {
                front,
                len: 0,
                last,
            };
        }
        let mut line = Line::new();
        push_decimal(&mut line, n / 10);
        let len = line.len();
        front[..len].copy_from_slice(line.as_slice());
        Counter { front, len, last }
    }

    /// Increments the digits of n.
    #[inline(always)]
    pub fn raise(&mut self, n: u64)
        requires digits { digits_of self.old ≡ decimal n }
        requires len { self.old.len ≤ 20 }
        requires next { n + 1 < 2 ^ 64 }
        ensures digits { digits_of self.new ≡ decimal (n + 1) }
        ensures len { self.new.len ≤ 20 }
    {
        if self.last < b'9' {
            self.last += 1;
            return;
        }
        // Nine of ten carries end here without formatting the number again.
        if self.len > 0 && self.front[self.len - 1] < b'9' {
            self.front[self.len - 1] += 1;
            self.last = b'0';
            return;
        }
        self.renew(n + 1);
    }

    /// Sets the digits to those of a number. Not inlined, because only one number in a hundred needs it.
    #[cold]
    #[inline(never)]
    fn renew(&mut self, n: u64)
        ensures digits { digits_of self.new ≡ decimal n }
        ensures len { self.new.len ≤ 20 }
    {
        *self = Counter::of(n);
    }
}
