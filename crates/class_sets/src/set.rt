// A set of classes.
ghost use Rattle.std.specs.Prelude.{◌≡◌, ◌≢◌, ◌≤◌, ◌<◌, ◌+◌, ◌-◌, ℕ, IfNone, IfSome, false, min, true, if◌then◌else◌};
ghost use Rattle.std.specs.Int.{bit_at};
ghost use Rattle.class_sets.specs.Marked.{IsFirst, IsLowest, marked};

use std::marker::Model;

/// A set of classes below 256: a bit for each, 64 in a word. Contracts see the words.
#[derive(Drop)]
pub struct ClassSet {
    words: [u64; 4],
}

impl Model for ClassSet {
    ghost use Rattle.std.specs.Prelude.{◌≡◌, ℕ, List, length};

    ghost Value = { List ℕ };

    ghost view = { λ w. w.words };

    ghost invariant = { λ w. length w.words ≡ 4 };
}

// How far from a place on the lowest bit of a word stands that is 1.
fn lowest_from(word: u64, place: u32) -> Option<u32>
    requires { place < 64 }
    ensures some { IfSome result (λ i. IsLowest word place (place + i)) }
    ensures none { IfNone result ((i : ℕ) → place ≤ i → i < 64 → bit_at word i ≡ 0) }
{
    let rest = word >> place;
    if rest == 0 {
        None
    } else {
        Some(rest.trailing_zeros())
    }
}

impl ClassSet {
    /// No class.
    pub fn none() -> ClassSet
        ensures { (c : ℕ) → marked result c ≡ 0 }
    {
        ClassSet { words: [0; 4] }
    }

    /// Whether no class is there.
    pub fn is_empty(&self) -> bool
        ensures none { result ≡ true → (c : ℕ) → marked self.now c ≡ 0 }
        ensures some { result ≡ false → (c : ℕ) × (marked self.now c ≡ 1) }
    {
        self.first_from(0).is_none()
    }

    /// Puts a class in, if it is to be there.
    pub fn put(&mut self, class: u32, kept: bool)
        requires { class < 256 }
        ensures here { marked self.new class ≡ (if kept then 1 else marked self.old class) }
        ensures others { (c : ℕ) → c ≢ class → marked self.new c ≡ marked self.old c }
    {
        if kept {
            self.words[(class / 64) as usize] |= 1 << (class % 64);
        }
    }

    /// Takes a class out, if it is to leave.
    pub fn take(&mut self, class: u32, emptied: bool)
        requires { class < 256 }
        ensures here { marked self.new class ≡ (if emptied then 0 else marked self.old class) }
        ensures others { (c : ℕ) → c ≢ class → marked self.new c ≡ marked self.old c }
    {
        if emptied {
            self.words[(class / 64) as usize] &= !(1 << (class % 64));
        }
    }

    /// The classes that are in both sets.
    pub fn within(&self, other: &ClassSet) -> ClassSet
        ensures { (c : ℕ) → marked result c ≡ min (marked self.now c) (marked other.now c) }
    {
        let a = &self.words;
        let b = &other.words;
        ClassSet {
            words: [a[0] & b[0], a[1] & b[1], a[2] & b[2], a[3] & b[3]],
        }
    }

    /// The classes that are in this set and not in the other.
    pub fn without(&self, other: &ClassSet) -> ClassSet
        ensures { (c : ℕ) → marked result c ≡ marked self.now c - marked other.now c }
    {
        let a = &self.words;
        let b = &other.words;
        ClassSet {
            words: [
                a[0] & (a[0] ^ b[0]),
                a[1] & (a[1] ^ b[1]),
                a[2] & (a[2] ^ b[2]),
                a[3] & (a[3] ^ b[3]),
            ],
        }
    }

    /// The first class from one on that is there. It looks at no more than four words.
    pub fn first_from(&self, from: u32) -> Option<u32>
        ensures some { IfSome result (λ class. IsFirst self.now from class) }
        ensures none { IfNone result ((c : ℕ) → from ≤ c → marked self.now c ≡ 0) }
    {
        let words = &self.words;
        let first = from / 64;
        if first >= 4 {
            return None;
        }
        if let Some(bit) = lowest_from(words[first as usize], from % 64) {
            return Some(from + bit);
        }
        for at in first + 1..4 {
            if let Some(bit) = lowest_from(words[at as usize], 0) {
                return Some(64 * at + bit);
            }
        }
        None
    }
}
