// Numbers of up to 128 bits in two halves: election ids, and the values of match fields and parameters.
#![tactic(auto)]

ghost use Rattle.std.specs.Prelude.{◌≡◌, ◌+◌, ◌^◌, ◌≤◌, ◌%◌, length, leb, ltb, eqb};
ghost use Rattle.rules.specs.Bytes.{number, int, bytes_of};
ghost use Rattle.rules.specs.Value.{value};
ghost use Rattle.rules.specs.Key.{bits_within};
ghost use Rattle.buffers.specs.Splice.{splice};
ghost use Rattle.numbers.specs.Whole.{whole_of};

// A number of up to 128 bits.
#[repr(C)]
#[derive(Clone, Copy, PartialEq, Eq, PartialOrd, Ord)]
pub struct Number {
    pub high: u64,
    pub low: u64,
}

// The number of both halves.
impl From<Number> for u128 {
    ghost from_gives = { λ x y. y ≡ whole_of x };

    fn from(x: Number) -> u128 {
        u128::from(x.high) * (1 << 64) + u128::from(x.low)
    }
}

// The halves of a number.
impl From<u128> for Number {
    ghost from_gives = { λ x y. whole_of y ≡ x };

    fn from(x: u128) -> Number {
        Number {
            high: (x / (1 << 64)) as u64,
            low: (x % (1 << 64)) as u64,
        }
    }
}

// The big-endian integer of the n bytes from `at`, at most eight.
pub fn integer(b: &[u8], at: usize, n: usize) -> u64
    requires { (n ≤ 8) × (at + n ≤ length b.now) }
    ensures { result ≡ int at n b.now }
{
    let mut x: u64 = 0;
    for digit in &b[at..at + n] {
        x = x * 256 + u64::from(*digit);
    }
    x
}

impl Number {
    pub const ZERO: Number = Number { high: 0, low: 0 };

    // The number of 16 bytes, big-endian.
    pub fn from_bytes(b: &[u8]) -> Number
        requires { length b.now ≡ 16 }
        ensures { whole_of result ≡ number b.now }
    {
        Number::from(u128::from_be_bytes(b.try_into().unwrap()))
    }

    // Writes the number as 16 bytes, big-endian.
    pub fn write(self, out: &mut [u8])
        requires { 16 ≤ length out.old }
        ensures { out.new ≡ splice out.old 0 (bytes_of 16 (whole_of self)) }
    {
        buffers::copy(&u128::from(self).to_be_bytes(), out);
    }

    // The number of a value: n bytes are all 16 with the last 16 - n shifted out. A length over 16 reads as 16.
    pub fn of_value(v: &[u8; 17]) -> Number
        ensures { whole_of result ≡ value v.now }
    {
        let n = u32::from(v[0]).min(16);
        let all = u128::from(Number::from_bytes(&v[1..17]));
        Number::from(all.checked_shr(128 - 8 * n).unwrap_or(0))
    }

    // Whether both are the same number.
    #[tactic(auto, using(crate::proofs::Order::equal_whole))]
    pub fn equals(self, other: Number) -> bool
        ensures { result ≡ eqb (whole_of self) (whole_of other) }
    {
        self == other
    }

    // Whether the number is the smaller of both.
    #[tactic(auto, using(crate::proofs::Order::below_whole))]
    pub fn below(self, other: Number) -> bool
        ensures { result ≡ ltb (whole_of self) (whole_of other) }
    {
        self < other
    }

    // Whether the number is the smaller of both, or the same.
    #[tactic(auto, using(crate::proofs::Order::upto_whole))]
    pub fn at_most(self, other: Number) -> bool
        ensures { result ≡ leb (whole_of self) (whole_of other) }
    {
        self <= other
    }

    // Whether the number is 0.
    pub fn is_zero(self) -> bool
        ensures { result ≡ eqb (whole_of self) 0 }
    {
        self == Number::ZERO
    }

    // Whether the number is below 2 to the width.
    pub fn fits(self, width: u8) -> bool
        ensures { result ≡ ltb (whole_of self) (2 ^ width) }
    {
        128 <= width || u128::from(self) < 1 << width
    }

    // Whether the number is the largest of `width` bits.
    pub fn is_ones(self, width: u8) -> bool
        ensures { result ≡ eqb (whole_of self + 1) (2 ^ width) }
    {
        if width < 128 {
            return u128::from(self) == (1 << width) - 1;
        }
        width == 128 && u128::from(self) == u128::MAX
    }

    // Whether the lowest k bits are 0.
    pub fn low_zero(self, k: u8) -> bool
        ensures { result ≡ eqb (whole_of self % 2 ^ k) 0 }
    {
        if k < 128 {
            return u128::from(self) % (1 << k) == 0;
        }
        self == Number::ZERO
    }

    // Whether no bit is outside the mask.
    pub fn within(self, mask: Number) -> bool
        ensures { result ≡ bits_within 128 (whole_of self) (whole_of mask) }
    {
        u128::from(self) & u128::from(mask) == u128::from(self)
    }
}
