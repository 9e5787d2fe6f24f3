//! Texts of one length compared by words of eight and of four bytes, since most pieces of a line have four to
//! sixteen.

ghost use Rattle.std.specs.Prelude.{◌≡◌, ◌≤◌, ◌-◌, drop, length, take};
ghost use Rattle.std.specs.Bool.{OnTrue};

/// Whether eight bytes are the same, by the numbers that they spell.
#[inline(always)]
#[tactic(auto, using(crate::proofs::Same::same_8))]
fn are_same_8(one: &[u8; 8], other: &[u8; 8]) -> bool
    ensures { OnTrue result (one.now ≡ other.now) }
{
    u64::from_le_bytes(*one) == u64::from_le_bytes(*other)
}

/// Whether four bytes are the same, by the numbers that they spell.
#[inline(always)]
#[tactic(auto, using(crate::proofs::Same::same_4))]
fn are_same_4(one: &[u8; 4], other: &[u8; 4]) -> bool
    ensures { OnTrue result (one.now ≡ other.now) }
{
    u32::from_le_bytes(*one) == u32::from_le_bytes(*other)
}

/// Whether the first eight bytes of two texts are the same. False also of texts with fewer.
#[inline(always)]
fn are_first_8(one: &[u8], other: &[u8]) -> bool
    ensures { OnTrue result (take 8 one.now ≡ take 8 other.now) }
{
    match (one.first_chunk::<8>(), other.first_chunk::<8>()) {
        (Some(first), Some(other_first)) => are_same_8(first, other_first),
        _ => false,
    }
}

/// Whether the last eight bytes of two texts are the same. False also of texts with fewer.
#[inline(always)]
fn are_last_8(one: &[u8], other: &[u8]) -> bool
    ensures { OnTrue result (drop (length one.now - 8) one.now ≡ drop (length other.now - 8) other.now) }
{
    match (one.last_chunk::<8>(), other.last_chunk::<8>()) {
        (Some(last), Some(other_last)) => are_same_8(last, other_last),
        _ => false,
    }
}

/// Whether the first four bytes of two texts are the same. False also of texts with fewer.
#[inline(always)]
fn are_first_4(one: &[u8], other: &[u8]) -> bool
    ensures { OnTrue result (take 4 one.now ≡ take 4 other.now) }
{
    match (one.first_chunk::<4>(), other.first_chunk::<4>()) {
        (Some(first), Some(other_first)) => are_same_4(first, other_first),
        _ => false,
    }
}

/// Whether the last four bytes of two texts are the same. False also of texts with fewer.
#[inline(always)]
fn are_last_4(one: &[u8], other: &[u8]) -> bool
    ensures { OnTrue result (drop (length one.now - 4) one.now ≡ drop (length other.now - 4) other.now) }
{
    match (one.last_chunk::<4>(), other.last_chunk::<4>()) {
        (Some(last), Some(other_last)) => are_same_4(last, other_last),
        _ => false,
    }
}

/// Whether two texts of one length, one to three bytes, are the same, by their first, middle and last bytes.
#[inline(always)]
fn are_same_few(one: &[u8], other: &[u8]) -> bool
    requires same { length one.now ≡ length other.now }
    requires some { 1 ≤ length other.now }
    requires few { length other.now ≤ 3 }
    ensures { OnTrue result (one.now ≡ other.now) }
{
    let (middle, last) = (other.len() / 2, other.len() - 1);
    one[0] == other[0] && one[middle] == other[middle] && one[last] == other[last]
}

/// Whether two texts of one length, one to sixteen bytes, are the same.
#[inline(always)]
#[tactic(auto, using(crate::proofs::Same::same_by_ends))]
fn are_same_short(one: &[u8], other: &[u8]) -> bool
    requires same { length one.now ≡ length other.now }
    requires some { 1 ≤ length other.now }
    requires few { length other.now ≤ 16 }
    ensures { OnTrue result (one.now ≡ other.now) }
{
    // Two words that overlap are all of such a text.
    match other.len() {
        8..=16 => are_first_8(one, other) && are_last_8(one, other),
        4..=7 => are_first_4(one, other) && are_last_4(one, other),
        _ => are_same_few(one, other),
    }
}

/// Whether two texts of one length are the same, also if they have no byte, or more than sixteen.
#[inline(never)]
#[tactic(auto)]
fn are_same_long(one: &[u8], other: &[u8]) -> bool
    requires { length one.now ≡ length other.now }
    ensures { OnTrue result (one.now ≡ other.now) }
{
    if 16 < other.len() && other.len() <= 32 {
        let (front, back) = one.split_at(16);
        let (other_front, other_back) = other.split_at(16);
        return are_same_short(front, other_front) && are_same_short(back, other_back);
    }
    one == other
}

/// Whether two texts of one length are the same.
#[inline(always)]
pub fn are_same(one: &[u8], other: &[u8]) -> bool
    requires { length one.now ≡ length other.now }
    ensures { OnTrue result (one.now ≡ other.now) }
{
    if 1 <= other.len() && other.len() <= 16 {
        return are_same_short(one, other);
    }
    are_same_long(one, other)
}
