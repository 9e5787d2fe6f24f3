//! Bytes in a buffer, until there is no room for one more line.

ghost use Rattle.std.specs.Prelude.{◌≡◌, ◌+◌, ◌≤◌, ◌++◌, decimal, length, take};

use crate::device::DeviceWords;
use crate::digits::put_decimal;
use crate::piece::Piece;
use crate::short::ShortText;
use std::marker::Model;

/// How many bytes the buffer has at most.
const BUFFER_BYTES: usize = 32_768;

/// Bytes that grow at their end, and that contracts see as their list. Putting more after them takes no
/// memory.
#[derive(Drop)]
pub struct ByteBuffer {
    room: [u8; 32768],
    used: usize,
}

impl Model for ByteBuffer {
    ghost use Rattle.std.specs.Prelude.{ℕ, List, ◌≤◌, take};

    ghost Value = { List ℕ };

    ghost view = { λ h. take h.used h.room };

    ghost invariant = { λ h. h.used ≤ 32768 };
}

impl ByteBuffer {
    ghost use Rattle.std.specs.Prelude.{◌≡◌, ◌+◌, ◌≤◌, ◌∷◌, ◌++◌, [], decimal, length, take};

    /// No byte.
    pub fn new() -> Self
        ensures { result ≡ [] }
    {
        ByteBuffer {
            room: [0; 32768],
            used: 0,
        }
    }

    /// Forgets the bytes.
    #[inline(always)]
    pub fn clear(&mut self)
        ensures { self.new ≡ [] }
    {
        self.used = 0;
    }

    /// The bytes.
    #[inline(always)]
    pub fn as_bytes(&self) -> &[u8]
        ensures { result.now ≡ self.now }
    {
        &self.room[..self.used]
    }

    /// For how many more there is room.
    #[inline(always)]
    pub fn left(&self) -> usize
        ensures { result + length self.now ≡ 32768 }
    {
        BUFFER_BYTES - self.used
    }

    /// Puts these bytes after the others.
    #[inline(always)]
    pub fn put(&mut self, bytes: &[u8])
        requires { length self.old + length bytes.now ≤ 32768 }
        ensures text { self.new ≡ self.old ++ bytes.now }
        ensures len { length self.new ≡ length self.old + length bytes.now }
    {
        self.room[self.used..self.used + bytes.len()].copy_from_slice(bytes);
        self.used += bytes.len();
    }

    /// Puts a byte after the others.
    #[inline(always)]
    pub fn put_byte(&mut self, byte: u8)
        requires { length self.old + 1 ≤ 32768 }
        ensures text { self.new ≡ self.old ++ byte ∷ [] }
        ensures len { length self.new ≡ length self.old + 1 }
    {
        self.room[self.used] = byte;
        self.used += 1;
    }

    /// Puts a short piece of text after the others.
    #[inline(always)]
    pub fn put_text(&mut self, text: &str)
        requires short { length text.now ≤ 64 }
        requires room { length self.old + 64 ≤ 32768 }
        ensures text { self.new ≡ self.old ++ text.now }
        ensures few { length self.new ≤ length self.old + 64 }
    {
        self.put(text.as_bytes());
    }

    /// Puts the number in decimal after the others.
    #[inline(always)]
    pub fn put_number(&mut self, number: u64)
        requires { length self.old + 20 ≤ 32768 }
        ensures text { self.new ≡ self.old ++ decimal number }
        ensures few { length self.new ≤ length self.old + 20 }
    {
        self.used = put_digits(&mut self.room, self.used, number);
    }

    /// Puts a piece after the others.
    #[inline(always)]
    pub fn put_piece(&mut self, piece: &Piece)
        requires { length self.old + 16 ≤ 32768 }
        ensures text { self.new ≡ self.old ++ piece.now }
        ensures few { length self.new ≤ length self.old + 16 }
    {
        self.used = copy_room(&mut self.room, self.used, piece.room(), piece.len());
    }

    /// Puts the front of a line after the others, and who makes the entry.
    #[inline(always)]
    pub fn put_start(&mut self, front: &ShortText, maker: &ShortText)
        requires { length self.old + 112 ≤ 32768 }
        ensures text { self.new ≡ self.old ++ (front.now ++ maker.now) }
        ensures few { length self.new ≤ length self.old + 112 }
    {
        let room = &mut self.room;
        let end = front.put_after(room, self.used);
        self.used = maker.put_after(room, end);
    }

    /// Puts a verb and a name after the others, and what follows the name.
    #[inline(always)]
    pub fn put_named(&mut self, verb: &Piece, name: &ShortText, last: &Piece)
        requires { length self.old + 88 ≤ 32768 }
        ensures text { self.new ≡ self.old ++ (verb.now ++ name.now ++ last.now) }
        ensures few { length self.new ≤ length self.old + 88 }
    {
        let room = &mut self.room;
        let end = copy_room(room, self.used, verb.room(), verb.len());
        let end = name.put_after(room, end);
        self.used = copy_room(room, end, last.room(), last.len());
    }

    /// Puts a verb and a number after the others, and what follows the number.
    #[inline(always)]
    pub fn put_numbered(&mut self, verb: &Piece, number: u64, last: &Piece)
        requires { length self.old + 52 ≤ 32768 }
        ensures text { self.new ≡ self.old ++ (verb.now ++ decimal number ++ last.now) }
        ensures few { length self.new ≤ length self.old + 52 }
    {
        let room = &mut self.room;
        let end = copy_room(room, self.used, verb.room(), verb.len());
        let end = put_digits(room, end, number);
        self.used = copy_room(room, end, last.room(), last.len());
    }

    /// Puts a text after the others.
    #[inline(always)]
    pub fn put_short(&mut self, text: &ShortText)
        requires { length self.old + 56 ≤ 32768 }
        ensures text { self.new ≡ self.old ++ text.now }
        ensures few { length self.new ≤ length self.old + 56 }
    {
        self.used = text.put_after(&mut self.room, self.used);
    }

    /// Puts a line of these pieces after the others.
    #[inline(always)]
    pub fn put_line(
        &mut self,
        front: &ShortText,
        maker: &ShortText,
        words: &DeviceWords,
        device: &ShortText,
    )
        requires { length self.old + 216 ≤ 32768 }
        ensures text { self.new ≡ self.old ++ (front.now ++ maker.now ++ words.now.verb ++ words.now.phase ++ device.now ++ words.now.ending) }
        ensures few { length self.new ≤ length self.old + 216 }
    {
        let room = &mut self.room;
        let end = front.put_after(room, self.used);
        let end = maker.put_after(room, end);
        let end = copy_room(room, end, words.verb.room(), words.verb.len());
        let end = copy_room(room, end, words.phase.room(), words.phase.len());
        let end = device.put_after(room, end);
        self.used = copy_room(room, end, words.ending.room(), words.ending.len());
    }
}

/// Copies all of a room after the first bytes of the buffer, since a copy of a known size costs least.
/// Returns the end of the text in it.
#[inline(always)]
pub fn copy_room<const N: usize>(
    buffer: &mut [u8],
    used: usize,
    room: &[u8; N],
    len: usize,
) -> usize
    requires room { used + N ≤ length buffer.old }
    requires len { len ≤ N }
    ensures text { take result buffer.new ≡ take used buffer.old ++ take len room.now }
    ensures end { result ≡ used + len }
{
    // What lies apart from all else is copied without a look at its position.
    let bytes = *room;
    buffer[used..used + N].copy_from_slice(&bytes);
    used + len
}

/// Puts a number in decimal after the first bytes of the buffer. Returns its end.
#[inline(always)]
fn put_digits(buffer: &mut [u8; 32768], used: usize, number: u64) -> usize
    requires { used + 20 ≤ 32768 }
    ensures text { take result buffer.new ≡ take used buffer.old ++ decimal number }
    ensures end { result ≤ used + 20 }
{
    put_decimal(buffer, used, number)
}
