//! A text cut at a byte.

ghost use Rattle.std.specs.Prelude.{◌≡◌};
ghost use Rattle.sleep_base.specs.Cutting.{before, after_first};

/// The bytes before the first byte that is `mark`, and those after it: all and none if there is no such byte
/// (`lib/string.c`, `strchr`).
pub fn cut(text: &[u8], mark: u8) -> (&[u8], &[u8])
    ensures before { result.0.now ≡ before mark text.now }
    ensures after_first { result.1.now ≡ after_first mark text.now }
{
    for i in 0..text.len() {
        if text[i] == mark {
            return (&text[..i], &text[i + 1..]);
        }
    }
    (text, b"")
}
