//! What the fixed words of a log mean.
ghost use Rattle.std.specs.Prelude.{◌≡◌, true};
ghost use Rattle.sleep_model.specs.Fits.{is_answer};
ghost use Rattle.log_text.specs.Words.{errno_in, answer_in, error_number, prepare_in, phase_in, cause_in, group_in, thaw_in, state_in, down_in};

use crate::reading::cut::is;
use log_words::NO_ERROR;
use sleep_base::Errno;
use sleep_model::{Group, Phase, PlatDo, SkipCause, State, Thaw, state_word};

/// The error of that name, and EINVAL for any other word.
pub fn errno_in(word: &[u8]) -> Errno
    ensures { result ≡ errno_in word.now }
{
    Errno::of_bytes(word).unwrap_or(Errno::EINVAL)
}

/// None for `0`, else the error of that name.
pub fn answer_in(word: &[u8]) -> Option<Errno>
    ensures { result ≡ answer_in word.now }
{
    if is(word, NO_ERROR) {
        return None;
    }
    Some(errno_in(word))
}

/// The error's number, below 0.
fn error_number(error: Errno) -> i32
    ensures { result ≡ error_number error }
{
    -i32::from(error.number())
}

/// What a device's prepare answered: 0, 1, or the negative number of an error.
pub fn prepare_in(word: &[u8]) -> i32
    ensures { result ≡ prepare_in word.now }
{
    if is(word, NO_ERROR) {
        return 0;
    }
    if is(word, "1") {
        return 1;
    }
    error_number(errno_in(word))
}

/// The phase of that name, and the last for any other word.
pub fn phase_in(word: &[u8]) -> Phase
    ensures { result ≡ phase_in word.now }
{
    Phase::of_bytes(word).unwrap_or(Phase::Complete)
}

/// Why a device was skipped; any other word means direct-complete.
#[tactic(auto, using(crate::proofs::WordsInjective::cause_injective))]
pub fn cause_in(word: &[u8]) -> SkipCause
    ensures { result ≡ cause_in word.now }
{
    SkipCause::of_bytes(word).unwrap_or(SkipCause::Direct)
}

/// Whom a freeze asks; any other word means kernel threads.
#[tactic(auto, using(crate::proofs::WordsInjective::group_injective))]
pub fn group_in(word: &[u8]) -> Group
    ensures { result ≡ group_in word.now }
{
    Group::of_bytes(word).unwrap_or(Group::Kernel)
}

/// Which tasks a thaw lets go.
pub fn thaw_in(word: &[u8]) -> Thaw
    ensures { result ≡ thaw_in word.now }
{
    if is(word, Group::Kernel.name()) {
        return Thaw::Kernel;
    }
    Thaw::All
}

/// What autosleep is set to, and off for any other word.
pub fn state_in(word: &[u8]) -> State
    ensures { result ≡ state_in word.now }
{
    if is(word, state_word(State::Mem)) {
        return State::Mem;
    }
    State::Off
}

/// The platform's step on the way down; any other word means the last.
#[tactic(auto, using(crate::proofs::WordsInjective::down_injective))]
pub fn down_in(word: &[u8]) -> PlatDo
    ensures { result ≡ down_in word.now }
{
    PlatDo::of_bytes(word).unwrap_or(PlatDo::PrepareLate)
}
