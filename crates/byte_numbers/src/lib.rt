// Numbers in slices of bytes, low byte first, read and written at a place.
// The place has to lie in the slice: callers are proved to see to that.
// Rests on no other crate.
#![tactic(auto)]

ghost use Rattle.std.specs.Prelude.{◌≡◌, ℕ, ◌+◌, ◌^◌, ◌<◌, ◌≤◌, List, length, pos, neg_ℤ, ◌≤ℤ◌, ◌<ℤ◌};
ghost use Rattle.byte_numbers.specs.Little.{little, number_of, complement, signed_of, part, overwritten};
ghost use Rattle.byte_numbers.specs.Numbers.{length_little, number_little, signed_little};

// A number that stands in bytes.
pub trait LittleEndian: Copy {
    const SIZE: usize;

    ghost SIZE: { ℕ };

    // The bytes of a number, and the number that bytes say.
    ghost bytes_of: { Self → List ℕ };

    ghost said_by: { List ℕ → Self };

    // What numbers the type has.
    ghost InRange: { Self → Type 0 };

    fn get(bytes: &[u8], at: usize) -> Self
        requires { at + SIZE ≤ length bytes.now }
        ensures { result ≡ said_by (part bytes.now at SIZE) };

    fn put(self, bytes: &mut [u8], at: usize)
        requires { at + SIZE ≤ length bytes.old }
        ensures { bytes.new ≡ overwritten bytes.old at (bytes_of self) };

    ghost sized: { (v : Self) → length (bytes_of v) ≡ SIZE };

    ghost read_back: { (v : Self) → InRange v → said_by (bytes_of v) ≡ v };
}

impl LittleEndian for u16 {
    const SIZE: usize = 2;

    ghost SIZE = { 2 };

    ghost bytes_of = { little 2 };

    ghost said_by = { number_of };

    ghost InRange = { λ v. v < 2 ^ 16 };

    fn get(bytes: &[u8], at: usize) -> u16 {
        u16::from_le_bytes([bytes[at], bytes[at + 1]])
    }

    fn put(self, bytes: &mut [u8], at: usize) {
        bytes[at..at + u16::SIZE].copy_from_slice(&self.to_le_bytes());
    }

    ghost sized = { length_little 2 };

    ghost read_back = { number_little 2 };
}

impl LittleEndian for u32 {
    const SIZE: usize = 4;

    ghost SIZE = { 4 };

    ghost bytes_of = { little 4 };

    ghost said_by = { number_of };

    ghost InRange = { λ v. v < 2 ^ 32 };

    fn get(bytes: &[u8], at: usize) -> u32 {
        u32::from_le_bytes([bytes[at], bytes[at + 1], bytes[at + 2], bytes[at + 3]])
    }

    fn put(self, bytes: &mut [u8], at: usize) {
        bytes[at..at + u32::SIZE].copy_from_slice(&self.to_le_bytes());
    }

    ghost sized = { length_little 4 };

    ghost read_back = { number_little 4 };
}

// In two's complement.
impl LittleEndian for i32 {
    const SIZE: usize = 4;

    ghost SIZE = { 4 };

    ghost bytes_of = { λ v. little 4 (complement v) };

    ghost said_by = { λ bs. signed_of (number_of bs) };

    ghost InRange = { λ v. (neg_ℤ (pos (2 ^ 31)) ≤ℤ v) × (v <ℤ pos (2 ^ 31)) };

    fn get(bytes: &[u8], at: usize) -> i32 {
        u32::get(bytes, at).cast_signed()
    }

    fn put(self, bytes: &mut [u8], at: usize) {
        self.cast_unsigned().put(bytes, at);
    }

    ghost sized = { λ v. length_little 4 (complement v) };

    ghost read_back = { λ v h. signed_little v h.0 h.1 };
}
