// Room for one line of text, on the stack.
ghost use Rattle.std.specs.Prelude.{◌≡◌, ◌+◌, ◌*◌, ◌≤◌, ◌++◌, ◌∷◌, [], length, decimal};

use itoa::{Buffer, Integer, write_digits};
use std::marker::Model;

/// The room of a text line, in bytes. No text line is longer.
pub const LINE_ROOM: usize = 192;

/// A line of text that is being put together, seen as its bytes. Takes no memory.
#[derive(Drop)]
pub struct TextLine {
    bytes: [u8; LINE_ROOM],
    len: usize,
}

impl Model for TextLine {
    ghost use Rattle.std.specs.Prelude.{List, ℕ, ◌≤◌, take};

    ghost Value = { List ℕ };

    ghost view = { λ line. take line.len line.bytes };

    ghost invariant = { λ line. line.len ≤ 192 };
}

impl TextLine {
    /// An empty line.
    pub fn new() -> Self
        ensures { result ≡ [] }
    {
        TextLine {
            bytes: [0; LINE_ROOM],
            len: 0,
        }
    }

    /// Forgets what the line holds.
    pub fn clear(&mut self)
        ensures { self.new ≡ [] }
    {
        self.len = 0;
    }

    /// Adds these bytes.
    pub fn push(&mut self, text: &[u8])
        requires { length self.old + length text.now ≤ LINE_ROOM }
        ensures { self.new ≡ self.old ++ text.now }
    {
        let end = self.len + text.len();
        self.bytes[self.len..end].copy_from_slice(text);
        self.len = end;
    }

    /// Adds a space and the number in decimal, which is at most `MAX_STR_LEN` bytes long.
    pub fn push_number<I: Integer>(&mut self, number: I)
        requires { length self.old + 1 + I.MAX_STR_LEN ≤ LINE_ROOM }
        ensures text { self.new ≡ self.old ++ 32 ∷ I.text number }
        ensures room { length self.new ≤ length self.old + 1 + I.MAX_STR_LEN }
    {
        let mut buffer = Buffer::new();
        self.push(b" ");
        self.push(buffer.format(number).as_bytes());
    }

    /// Adds a space and the number in decimal, at most twenty digits, as `push_number` does. The
    /// digits are written where they stay, and not copied.
    pub fn push_u64(&mut self, number: u64)
        requires { length self.old + 1 + 20 ≤ LINE_ROOM }
        ensures text { self.new ≡ self.old ++ 32 ∷ decimal number }
        ensures room { length self.new ≤ length self.old + 1 + 20 }
    {
        self.push_digits(number);
    }

    /// Adds a space and the number in decimal, where there is room for its digits.
    #[inline]
    fn push_digits(&mut self, number: u64)
        requires { length self.old + 1 + length (decimal number) ≤ LINE_ROOM }
        ensures { self.new ≡ self.old ++ 32 ∷ decimal number }
    {
        let end = self.len + 1 + digit_count(number);
        self.bytes[self.len] = b' ';
        write_digits(number, &mut self.bytes, end);
        self.len = end;
    }

    /// Adds a label and two places, each a space and at most ten digits.
    pub fn push_places(&mut self, label: &[u8], first: u32, second: u32)
        requires { length self.old + length label.now + 2 * (1 + 10) ≤ LINE_ROOM }
        ensures text { self.new
            ≡ self.old ++ label.now ++ 32 ∷ decimal first ++ 32 ∷ decimal second }
        ensures room { length self.new ≤ length self.old + length label.now + 2 * (1 + 10) }
    {
        self.push(label);
        self.push_digits(u64::from(first));
        self.push_digits(u64::from(second));
    }

    /// The bytes of the line.
    pub fn as_bytes(&self) -> &[u8]
        ensures { result.now ≡ self.now }
    {
        &self.bytes[..self.len]
    }
}

/// How many digits write the number in decimal.
#[inline]
fn digit_count(number: u64) -> usize
    ensures { result ≡ length (decimal number) }
{
    if number < 10 {
        return 1;
    }
    number.ilog10() as usize + 1
}
