//! The lines of a text.

ghost use Rattle.std.specs.Prelude.{◌≡◌, ◌≢◌, ◌++◌, ◌∷◌, ◌+◌, ◌<◌, [], length, IfOk};
ghost use Rattle.log_text.specs.Grammar.{lines};

use sleep_base::{Mem, cut};

/// The first line of a text that is not empty, with its newline, if it has one, and what follows it.
#[tactic(auto, using(crate::proofs::FirstLines::line_cut, crate::proofs::FirstLines::line_whole))]
pub fn first_line(text: &[u8]) -> (&[u8], &[u8])
    requires { text.now ≢ [] }
    ensures joined { result.0.now ++ result.1.now ≡ text.now }
    ensures lines { lines text.now ≡ result.0.now ∷ lines result.1.now }
    ensures shorter { length result.1.now < length text.now }
{
    let (before, _) = cut(text, b'\n');
    let end = before.len();
    if end < text.len() {
        text.split_at(end + 1)
    } else {
        (text, b"")
    }
}

/// The number of the next line. `Mem` if there is none.
pub fn next_number(line: u32) -> Result<u32, Mem>
    ensures { IfOk result (λ n. n ≡ line + 1) }
{
    match line.checked_add(1) {
        Some(next) => Ok(next),
        None => Err(Mem),
    }
}
