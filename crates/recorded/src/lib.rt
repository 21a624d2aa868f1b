// The list of recorded answers: numbers and bytes, read one after another, or held to what is expected. README.md of crates/replay says how it
// is laid out.
#![tactic(auto)]

ghost use Rattle.std.specs.Prelude.{List, [], ℕ, ◌≡◌, ◌↔◌, IsSome, IsTrue, Option, Some, option_and_then, option_map};
ghost use Rattle.recorded.specs.Reading.{after, byte, bytes, got, number, two_bytes};

use std::marker::Model;

// What is left of the list; nothing, once it did not say what was expected, or ended too early.
#[derive(Drop)]
pub struct Recorded<'a> {
    left: Option<&'a [u8]>,
}

// A list is what is left of it.
impl<'a> Model for Recorded<'a> {
    ghost Value = { Option (List ℕ) };

    ghost view = { λ r. option_map (λ left. left.now) r.left };
}

impl<'a> Recorded<'a> {
    pub fn new(list: &'a [u8]) -> Recorded<'a>
        ensures { result ≡ Some list.now }
    {
        Recorded { left: Some(list) }
    }

    // Whether all of the list was read, and said what was expected.
    pub fn is_at_end(&self) -> bool
        ensures { IsTrue result ↔ (self.now ≡ Some []) }
    {
        match self.left {
            Some(left) => left.is_empty(),
            None => false,
        }
    }

    // The next byte.
    fn byte(&mut self) -> Option<u8>
        ensures got { result ≡ got byte self.old }
        ensures left { self.new ≡ after byte self.old }
    {
        let (first, rest) = self.left.take()?.split_first()?;
        self.left = Some(rest);
        Some(*first)
    }

    // The number that two bytes are, the lower first.
    pub fn two_bytes(&mut self) -> Option<usize>
        ensures got { result ≡ got two_bytes self.old }
        ensures left { self.new ≡ after two_bytes self.old }
    {
        let low = self.byte()?;
        let high = self.byte()?;
        Some(usize::from(u16::from_le_bytes([low, high])))
    }

    // The next number: one byte, or, after a byte 255, two.
    pub fn number(&mut self) -> Option<usize>
        ensures got { result ≡ got number self.old }
        ensures left { self.new ≡ after number self.old }
    {
        match self.byte()? {
            255 => self.two_bytes(),
            byte => Some(usize::from(byte)),
        }
    }

    // The next bytes: their length stands in front of them.
    pub fn bytes(&mut self) -> Option<&'a [u8]>
        ensures got { option_map (λ b. b.now) result ≡ got bytes self.old }
        ensures left { self.new ≡ after bytes self.old }
    {
        let len = self.number()?;
        let (bytes, rest) = self.left.take()?.split_at_checked(len)?;
        self.left = Some(rest);
        Some(bytes)
    }

    // Passes the next number, if it is this one.
    pub fn expect_number(&mut self, expected: usize) -> Option<()>
        ensures passed { IsSome result ↔ (got number self.old ≡ Some expected) }
        ensures left { self.new ≡ option_and_then (λ _. after number self.old) result }
    {
        if self.number()? == expected {
            return Some(());
        }
        self.left = None;
        None
    }

    // Passes the next two numbers, if they are these.
    pub fn expect_two(&mut self, first: usize, second: usize) -> Option<()>
        ensures passed { IsSome result ↔ ((got number self.old ≡ Some first) × (got number (after number self.old) ≡ Some second)) }
        ensures left { self.new ≡ option_and_then (λ _. after number (after number self.old)) result }
    {
        self.expect_number(first)?;
        self.expect_number(second)
    }

    // Passes the next bytes, if they are these.
    pub fn expect_bytes(&mut self, expected: &[u8]) -> Option<()>
        ensures passed { IsSome result ↔ (got bytes self.old ≡ Some expected.now) }
        ensures left { self.new ≡ option_and_then (λ _. after bytes self.old) result }
    {
        if self.bytes()? == expected {
            return Some(());
        }
        self.left = None;
        None
    }
}
