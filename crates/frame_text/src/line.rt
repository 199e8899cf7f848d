// A line of text, put together in place.
ghost use Rattle.std.specs.Prelude.{◌≡◌, ◌≤◌, ◌+◌, ◌^◌, ◌<◌, [], ◌++◌, length, decimal, codes, unsigned_abs};
ghost use Rattle.std.specs.Fmt.{signed_decimal};
ghost use Rattle.fixed_vec.specs.Vector.{IsBelow};
ghost use Rattle.frame_text.specs.Lines.{vector_text};

use arrayvec::ArrayVec;
use fixed_vec::V2;
use itoa::Buffer;
use std::marker::Model;

/// A line of at most 160 bytes. It takes no memory.
#[derive(Drop)]
pub struct Line {
    text: ArrayVec<u8, 160>,
}

impl Model for Line {
    ghost use Rattle.std.specs.Prelude.{List, ℕ};

    ghost Value = { List ℕ };

    ghost view = { λ l. l.text.items };
}

impl Line {
    /// An empty line.
    pub fn new() -> Self
        ensures { result ≡ [] }
    {
        Line {
            text: ArrayVec::new(),
        }
    }

    /// Its bytes.
    pub fn bytes(&self) -> &[u8]
        ensures { result.now ≡ self.now }
    {
        self.text.as_slice()
    }

    /// Appends bytes that fit.
    pub fn put(&mut self, bytes: &[u8])
        requires { length self.old + length bytes.now ≤ 160 }
        ensures { self.new ≡ self.old ++ bytes.now }
    {
        self.text.try_extend_from_slice(bytes).unwrap();
    }

    /// Appends a number without a sign, of at most 10 digits.
    pub fn put_number(&mut self, n: u32)
        requires { length self.old + 10 ≤ 160 }
        ensures text { self.new ≡ self.old ++ decimal n }
        ensures size { length self.new ≤ length self.old + 10 }
    {
        let mut buffer = Buffer::new();
        self.put(buffer.format(n).as_bytes());
    }

    // Appends a number with its sign, of at most 11 bytes.
    fn put_signed(&mut self, n: i32)
        requires { length self.old + 11 ≤ 160 }
        ensures text { self.new ≡ self.old ++ signed_decimal n }
        ensures size { length self.new ≤ length self.old + 11 }
    {
        let mut buffer = Buffer::new();
        self.put(buffer.format(n).as_bytes());
    }

    /// Appends the two coordinates of a vector, with a comma between them: at most 23 bytes. The
    /// coordinates are below 2^31 in size.
    #[tactic(auto, unfolding(crate::specs::Lines::vector_text))]
    pub fn put_vector(&mut self, v: V2)
        requires room { length self.old + 23 ≤ 160 }
        requires small { IsBelow v (2 ^ 31) }
        ensures text { self.new ≡ self.old ++ vector_text v }
        ensures size { length self.new ≤ length self.old + 23 }
    {
        self.put_signed(v.x as i32);
        self.put(b",");
        self.put_signed(v.y as i32);
    }
}

/// The line of a word, which ends with a comma, and a number.
pub(crate) fn numbered(word: &[u8], number: u32) -> Line
    requires { length word.now < 100 }
    ensures text { result ≡ word.now ++ decimal number ++ codes "\n" }
    ensures some { 0 < length result }
{
    let mut line = Line::new();
    line.put(word);
    line.put_number(number);
    line.put(b"\n");
    line
}
