// Numbers of rows, with their digits.
ghost use Rattle.std.specs.Prelude.{◌≡◌, ◌≤◌, decimal, drop, length};

use itoa::write_digits;

// How many digits the longest number has.
const LONGEST: usize = 20;

/// A number with its digits, which stay until another is written.
#[derive(Drop)]
pub struct Number {
    value: u64,
    bytes: [u8; LONGEST],
    from: usize,
    ghost within: { from ≤ 20 },
    ghost digits: { drop from bytes ≡ decimal value },
}

impl Number {
    // The number 0.
    pub fn zero() -> Number
        ensures { result.value ≡ 0 }
    {
        let mut bytes = [0; LONGEST];
        let from = write_digits(0, &mut bytes, LONGEST);
        Number {
            value: 0,
            bytes,
            from,
        }
    }

    // The number.
    pub fn value(&self) -> u64
        ensures { result ≡ self.now.value }
    {
        self.value
    }

    // Writes another number.
    pub fn set(&mut self, value: u64)
        ensures { self.new.value ≡ value }
    {
        self.from = write_digits(value, &mut self.bytes, LONGEST);
        self.value = value;
    }

    // Writes another number, which mostly is the next one: of that the last digit alone differs, unless it was 9.
    pub fn follow(&mut self, value: u64)
        ensures { self.new.value ≡ value }
    {
        let digit = self.bytes[LONGEST - 1];
        if self.value < value && value - self.value == 1 && digit < b'9' {
            self.bytes[LONGEST - 1] = digit + 1;
            self.value = value;
        } else {
            self.set(value);
        }
    }

    // Its digits, 20 at the most.
    pub fn as_bytes(&self) -> &[u8]
        ensures digits { result.now ≡ decimal self.now.value }
        ensures short { length result.now ≤ 20 }
    {
        &self.bytes[self.from..]
    }
}
