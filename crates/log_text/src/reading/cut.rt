//! The first word of a text, and what follows it.
ghost use Rattle.std.specs.Prelude.{◌≡◌};
ghost use Rattle.std.specs.Str.{bytes_eq};
ghost use Rattle.log_text.specs.Cutting.{word, rest};

use sleep_base::cut;

/// The first word of a text, and what follows its space.
pub fn first_word(text: &[u8]) -> (&[u8], &[u8])
    ensures word { result.0.now ≡ word text.now }
    ensures rest { result.1.now ≡ rest text.now }
{
    cut(text, b' ')
}

/// Whether the text is this word.
#[inline(always)]
pub fn is(text: &[u8], word: &str) -> bool
    ensures { result ≡ bytes_eq text.now word.now }
{
    text == word.as_bytes()
}
