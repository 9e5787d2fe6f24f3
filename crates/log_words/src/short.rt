//! Short texts, copied by 16 bytes or by all of their room, since a copy of a known size costs least.

ghost use Rattle.std.specs.Prelude.{◌≡◌, drop, take};

use crate::buffer::copy_room;
use crate::digits::{put_byte, put_decimal};
use crate::number_text::NumberText;
use std::marker::Model;

/// A short text at the beginning of its room, that contracts see as the list of its bytes.
#[derive(Drop)]
pub struct ShortText {
    room: [u8; 56],
    len: usize,
}

impl Model for ShortText {
    ghost use Rattle.std.specs.Prelude.{ℕ, List, ◌≤◌, take};

    ghost Value = { List ℕ };

    ghost view = { λ t. take t.len t.room };

    ghost invariant = { λ t. t.len ≤ 56 };
}

impl ShortText {
    ghost use Rattle.std.specs.Prelude.{◌≡◌, ◌+◌, ◌≤◌, ◌++◌, length, take};
    ghost use Rattle.log_words.specs.Front.{front_text};

    /// The text of these bytes.
    pub fn of(bytes: &[u8]) -> Self
        requires { length bytes.now ≤ 56 }
        ensures { result ≡ bytes.now }
    {
        let mut room = [0; 56];
        room[..bytes.len()].copy_from_slice(bytes);
        ShortText {
            room,
            len: bytes.len(),
        }
    }

    /// Puts these bytes after the text.
    pub fn push(&mut self, bytes: &[u8])
        requires { length self.old + length bytes.now ≤ 56 }
        ensures { self.new ≡ self.old ++ bytes.now }
    {
        let len = self.len + bytes.len();
        self.room[self.len..len].copy_from_slice(bytes);
        self.len = len;
    }

    /// Puts a moment, in ms, and a word of these numbers in place of the text, each with the space after it.
    #[inline(always)]
    #[tactic(auto, using(std::proofs::Common::append_assoc, crate::proofs::Decimals::decimal_short, crate::proofs::Decimals::decimal_short32))]
    pub fn set_front(&mut self, time: u64, inpr: u32, count: &NumberText, hard: &NumberText)
        ensures { self.new ≡ front_text time (record { inpr = inpr; count = count.now.number; hard = hard.now.number }) }
    {
        let room = &mut self.room;
        let end = put_decimal(room, 0, time);
        let end = put_byte(room, end, b' ');
        let end = put_decimal(room, end, u64::from(inpr));
        let end = put_byte(room, end, b'/');
        let end = count.put_after(room, end);
        let end = put_byte(room, end, b'/');
        let end = hard.put_after(room, end);
        self.len = put_byte(room, end, b' ');
    }

    /// The text.
    pub fn as_bytes(&self) -> &[u8]
        ensures { result.now ≡ self.now }
    {
        &self.room[..self.len]
    }

    /// Puts the text after the first bytes of a buffer, and answers where it ends.
    #[inline(always)]
    pub fn put_after(&self, buffer: &mut [u8], used: usize) -> usize
        requires { used + 56 ≤ length buffer.old }
        ensures text { take result buffer.new ≡ take used buffer.old ++ self.now }
        ensures end { result ≤ used + 56 }
    {
        let (head, tail) = split_room(&self.room);
        let len = self.len;
        let end = copy_room(buffer, used, head, 16);
        // Few texts have more bytes.
        if len <= 16 {
            return used + len;
        }
        copy_room(buffer, end, tail, len - 16)
    }
}

/// The first 16 bytes of a room, and the others.
#[inline(always)]
fn split_room(room: &[u8; 56]) -> (&[u8; 16], &[u8; 40])
    ensures head { result.0.now ≡ take 16 room.now }
    ensures tail { result.1.now ≡ drop 16 room.now }
{
    match (room.first_chunk::<16>(), room.last_chunk::<40>()) {
        (Some(head), Some(tail)) => (head, tail),
        _ => unreachable!(),
    }
}
