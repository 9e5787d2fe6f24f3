//! What is told of a long text, in short.

/// How many lines a text has.
pub fn lines(text: &[u8]) -> usize {
    text.iter().filter(|byte| **byte == b'\n').count()
}

/// How many lines of a text end so.
pub fn lines_with(text: &[u8], end: &str) -> usize {
    let text = str::from_utf8(text).unwrap_or("");
    text.lines().filter(|line| line.ends_with(end)).count()
}

/// The last line of a text, with its newline.
pub fn last_line(text: &[u8]) -> &[u8] {
    let before = &text[..text.len().saturating_sub(1)];
    match before.iter().rposition(|byte| *byte == b'\n') {
        Some(at) => &text[at + 1..],
        None => text,
    }
}

/// The checksum Adler-32 of a text (RFC 1950).
pub fn adler32(text: &[u8]) -> u64 {
    let (mut sum, mut sums) = (1u64, 0u64);
    for byte in text {
        sum = sum.wrapping_add(u64::from(*byte)) % 65_521;
        sums = sums.wrapping_add(sum) % 65_521;
    }
    sums.wrapping_mul(65_536).wrapping_add(sum)
}
