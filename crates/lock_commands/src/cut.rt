//! Texts, cut at the first byte of a value.

ghost use Rattle.std.specs.Prelude.{◌≡◌, ◌≢◌, ◌<◌, ◌∷◌, [], length};
ghost use Rattle.lock_commands.specs.Lines.{lines};

use sleep_base::cut;

/// The first line of a text that is not empty, and what follows its newline.
#[tactic(auto, using(crate::proofs::FirstLine::first_of, crate::proofs::FirstLine::shorter))]
pub(crate) fn first_line(text: &[u8]) -> (&[u8], &[u8])
    requires { text.now ≢ [] }
    ensures lines { lines text.now ≡ result.0.now ∷ lines result.1.now }
    ensures shorter { length result.1.now < length text.now }
{
    cut(text, b'\n')
}
