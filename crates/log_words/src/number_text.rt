//! A number in decimal that is kept while the number stays.

ghost use Rattle.std.specs.Prelude.{◌≡◌, ◌+◌, ◌≤◌, ◌++◌, decimal, length, take};

use crate::buffer::copy_room;
use crate::digits::put_decimal;

/// A number with its digits, which are put together anew only if it changes.
#[derive(Drop)]
pub struct NumberText {
    number: u32,
    room: [u8; 12],
    len: usize,
    ghost few: { len ≤ 10 },
    ghost digits_are: { take len room ≡ decimal number },
}

impl NumberText {
    /// That number.
    #[tactic(auto, using(crate::proofs::Decimals::decimal_short32))]
    pub fn of(number: u32) -> Self
        ensures { result.number ≡ number }
    {
        let mut room = [0; 12];
        let len = put_decimal(&mut room, 0, u64::from(number));
        NumberText { number, room, len }
    }

    /// Goes on to that number.
    #[inline(always)]
    #[tactic(auto, using(crate::proofs::Decimals::decimal_short32))]
    pub fn move_to(&mut self, number: u32)
        ensures { self.new.number ≡ number }
    {
        if self.number != number {
            self.len = put_decimal(&mut self.room, 0, u64::from(number));
            self.number = number;
        }
    }

    /// Puts the number after the first bytes of a room, and answers where it ends.
    #[inline(always)]
    pub fn put_after(&self, room: &mut [u8], used: usize) -> usize
        requires { used + 12 ≤ length room.old }
        ensures text { take result room.new ≡ take used room.old ++ decimal self.now.number }
        ensures end { result ≤ used + 10 }
    {
        copy_room(room, used, &self.room, self.len)
    }
}
