// Text: pieces, numbers in decimal, lines of numbers, and the lines of an input that is refused, put into lent bytes (`lent`), or in fixed memory of its own behind what stands there (`Text`).
#![tactic(auto)]

ghost use Rattle.std.specs.Prelude.{◌≡◌, List, ℕ, [], ◌∷◌, ◌++◌, ◌+◌, ◌≤◌, ◌<◌, length, take};
ghost use Rattle.paper.specs.Text.{decimal, line, refused_line, too_long_line};

use std::marker::Model;

mod lent;

pub use lent::{put, put_line, put_number, put_refused, put_too_long};

// A text of at most N bytes.
#[derive(Drop)]
pub struct Text<const N: usize> {
    bytes: [u8; N],
    size: usize,
}

impl<const N: usize> Model for Text<N> {
    ghost Value = { List ℕ };

    ghost view = { λ t. take t.size t.bytes };

    ghost invariant = { λ t. t.size ≤ length t.bytes };
}

impl<const N: usize> Text<N> {
    // No text yet.
    pub fn new() -> Self
        ensures { result ≡ [] }
    {
        Text {
            bytes: [0; N],
            size: 0,
        }
    }

    // The bytes of the text.
    pub fn as_slice(&self) -> &[u8]
        ensures { result.now ≡ self.now }
    {
        let bytes = &self.bytes[..];
        &bytes[..self.size]
    }

    // Puts a piece of text.
    pub fn put(&mut self, piece: &[u8])
        requires { length self.old + length piece.now ≤ N }
        ensures { self.new ≡ self.old ++ piece.now }
    {
        let start = self.size;
        let end = lent::put(&mut self.bytes, start, piece);
        self.size = end;
    }

    // Puts a number in decimal.
    pub fn put_number(&mut self, number: u32)
        requires { length self.old + length (decimal number) ≤ N }
        ensures { self.new ≡ self.old ++ decimal number }
    {
        self.size = lent::put_number(&mut self.bytes, self.size, number);
    }

    // Puts a line of numbers, one at least, one space apart.
    pub fn put_line(&mut self, numbers: &[u32])
        requires { (0 < length numbers.now) × (length self.old + length (line numbers.now) ≤ N) }
        ensures { self.new ≡ self.old ++ line numbers.now }
    {
        self.size = lent::put_line(&mut self.bytes, self.size, numbers);
    }

    // Puts that an input is refused, and the number.
    pub fn put_refused(&mut self, number: u32)
        requires { length self.old + length (refused_line number) ≤ N }
        ensures { self.new ≡ self.old ++ refused_line number }
    {
        self.size = lent::put_refused(&mut self.bytes, self.size, number);
    }

    // Puts that an input is too long.
    pub fn put_too_long(&mut self)
        requires { length self.old + length too_long_line ≤ N }
        ensures { self.new ≡ self.old ++ too_long_line }
    {
        self.size = lent::put_too_long(&mut self.bytes, self.size);
    }
}
