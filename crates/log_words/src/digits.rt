//! Numbers in decimal, whose digits are written in place, two at a time.

ghost use Rattle.std.specs.Prelude.{◌≡◌, ◌+◌, ◌/◌, ◌%◌, ◌<◌, ◌≤◌, ◌∷◌, ◌++◌, [], decimal, length, take};

use itoa::write_digits;

/// The two digits of each number below 100.
static PAIRS: [u8; 200] =
    *b"00010203040506070809101112131415161718192021222324252627282930313233343536373839404142434445464748495051525354555657585960616263646566676869707172737475767778798081828384858687888990919293949596979899";

/// Puts a byte after the first bytes of a room, and answers where it ends.
#[inline(always)]
pub fn put_byte(room: &mut [u8], used: usize, byte: u8) -> usize
    requires { used + 1 ≤ length room.old }
    ensures text { take result room.new ≡ take used room.old ++ byte ∷ [] }
    ensures end { result ≡ used + 1 }
{
    room[used] = byte;
    used + 1
}

/// Puts two digits after the first bytes of a room, and answers their end.
#[inline(always)]
fn put_pair(room: &mut [u8], used: usize, pair: u64) -> usize
    requires pair { pair < 100 }
    requires room { used + 2 ≤ length room.old }
    ensures text { take result room.new ≡ take used room.old ++ (48 + pair / 10) ∷ (48 + pair % 10) ∷ [] }
    ensures end { result ≡ used + 2 }
{
    let from = pair as usize * 2;
    let (tens, ones) = (PAIRS[from], PAIRS[from + 1]);
    room[used] = tens;
    room[used + 1] = ones;
    used + 2
}

/// Puts a digit after the first bytes of a room, and answers its end.
#[inline(always)]
fn put_digit(room: &mut [u8], used: usize, digit: u64) -> usize
    requires digit { digit < 10 }
    requires room { used + 1 ≤ length room.old }
    ensures text { take result room.new ≡ take used room.old ++ decimal digit }
    ensures end { result ≡ used + 1 }
{
    room[used] = b'0' + digit as u8;
    used + 1
}

/// Puts a number below 100 after the first bytes of a room, and answers its end.
#[inline(always)]
fn put_two(room: &mut [u8], used: usize, number: u64) -> usize
    requires number { number < 100 }
    requires room { used + length (decimal number) ≤ length room.old }
    ensures text { take result room.new ≡ take used room.old ++ decimal number }
    ensures end { result ≡ used + length (decimal number) }
{
    if number < 10 {
        put_digit(room, used, number)
    } else {
        put_pair(room, used, number)
    }
}

/// Puts a number below 10,000 after the first bytes of a room, and answers its end.
#[inline(always)]
fn put_four(room: &mut [u8], used: usize, number: u64) -> usize
    requires number { number < 10000 }
    requires room { used + length (decimal number) ≤ length room.old }
    ensures text { take result room.new ≡ take used room.old ++ decimal number }
    ensures end { result ≡ used + length (decimal number) }
{
    if number < 100 {
        return put_two(room, used, number);
    }
    let end = put_two(room, used, number / 100);
    put_pair(room, end, number % 100)
}

/// Puts a number below 100,000,000 after the first bytes of a room, and answers its end.
#[inline(always)]
fn put_eight(room: &mut [u8], used: usize, number: u64) -> usize
    requires number { number < 100000000 }
    requires room { used + length (decimal number) ≤ length room.old }
    ensures text { take result room.new ≡ take used room.old ++ decimal number }
    ensures end { result ≡ used + length (decimal number) }
{
    if number < 10_000 {
        return put_four(room, used, number);
    }
    let four = number % 10_000;
    let end = put_four(room, used, number / 10_000);
    let end = put_pair(room, end, four / 100);
    put_pair(room, end, four % 100)
}

/// How many digits a number has.
fn digits_of(number: u64) -> usize
    ensures { result ≡ length (decimal number) }
{
    let mut left = number;
    let mut count = 1;
    while left >= 10 {
        left /= 10;
        count += 1;
    }
    count
}

/// Puts a number in decimal after the first bytes of a room, and answers its end.
#[inline(always)]
pub fn put_decimal(room: &mut [u8], used: usize, number: u64) -> usize
    requires { used + length (decimal number) ≤ length room.old }
    ensures text { take result room.new ≡ take used room.old ++ decimal number }
    ensures end { result ≡ used + length (decimal number) }
{
    // Most numbers of a log have one digit.
    if number < 10 {
        return put_digit(room, used, number);
    }
    if number < 100_000_000 {
        return put_eight(room, used, number);
    }
    put_long(room, used, number)
}

/// Puts a number after the first bytes of a room, also if it is long, and answers its end.
#[cold]
#[inline(never)]
fn put_long(room: &mut [u8], used: usize, number: u64) -> usize
    requires { used + length (decimal number) ≤ length room.old }
    ensures text { take result room.new ≡ take used room.old ++ decimal number }
    ensures end { result ≡ used + length (decimal number) }
{
    let end = used + digits_of(number);
    write_digits(number, room, end);
    end
}
