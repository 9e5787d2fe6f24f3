//! The words that lines of devices have, each ready to be copied with all of its room.

ghost use Rattle.std.specs.Prelude.{◌≡◌, ◌++◌};
ghost use Rattle.phase_table.specs.Phases.{phase_name};
ghost use Rattle.sleep_model.specs.Text.{cause_text, newline, space};

use sleep_model::{Phase, SkipCause};
use std::marker::Model;

/// A few bytes at the beginning of their room, that contracts see as their list.
#[derive(Drop)]
pub struct Piece {
    room: &'static [u8; 16],
    len: usize,
}

impl Model for Piece {
    ghost use Rattle.std.specs.Prelude.{◌≡◌, ℕ, List, ◌≤◌, length, take};

    ghost Value = { List ℕ };

    ghost view = { λ p. take p.len p.room.now };

    ghost invariant = { λ p. (p.len ≤ 16) × (length p.room.now ≡ 16) };
}

impl Piece {
    ghost use Rattle.std.specs.Prelude.{◌≡◌, ◌≤◌, ◌++◌, [], None, length, take};
    ghost use Rattle.sleep_model.specs.Text.{answer_text, newline, space};

    /// The first bytes of this room.
    #[inline(always)]
    pub fn of(room: &'static [u8; 16], len: usize) -> Self
        requires { len ≤ 16 }
        ensures { result ≡ take len room.now }
    {
        Piece { room, len }
    }

    /// No byte.
    #[inline(always)]
    pub fn none() -> Self
        ensures { result ≡ [] }
    {
        Piece::of(b"                ", 0)
    }

    /// The end of a line.
    #[inline(always)]
    pub fn newline() -> Self
        ensures { result ≡ newline }
    {
        Piece::of(b"\n               ", 1)
    }

    /// The answer 0 after a space, and the end of the line.
    #[inline(always)]
    pub fn success() -> Self
        ensures { result ≡ space ++ answer_text None ++ newline }
    {
        Piece::of(b" 0\n             ", 3)
    }

    /// The bytes with all of the room after them.
    #[inline(always)]
    pub fn room(&self) -> &'static [u8; 16]
        ensures text { take (length self.now) result.now ≡ self.now }
        ensures len { length result.now ≡ 16 }
    {
        self.room
    }

    /// How many bytes they are.
    #[inline(always)]
    pub fn len(&self) -> usize
        ensures len { result ≡ length self.now }
        ensures most { result ≤ 16 }
    {
        self.len
    }
}

/// The phase, with the space after it.
#[inline(always)]
pub fn phase_piece(phase: Phase) -> Piece
    ensures { result ≡ phase_name phase ++ space }
{
    match phase {
        Phase::Prepare => Piece::of(b"prepare         ", 8),
        Phase::Suspend => Piece::of(b"suspend         ", 8),
        Phase::Late => Piece::of(b"late            ", 5),
        Phase::Noirq => Piece::of(b"noirq           ", 6),
        Phase::Syscore => Piece::of(b"syscore         ", 8),
        Phase::SyscoreResume => Piece::of(b"syscore_resume  ", 15),
        Phase::ResumeNoirq => Piece::of(b"resume_noirq    ", 13),
        Phase::Early => Piece::of(b"early           ", 6),
        Phase::Resume => Piece::of(b"resume          ", 7),
        Phase::Complete => Piece::of(b"complete        ", 9),
    }
}

/// Why a device was skipped, after a space, at the end of a line.
#[inline(always)]
pub fn cause_piece(cause: SkipCause) -> Piece
    ensures { result ≡ space ++ cause_text cause ++ newline }
{
    match cause {
        SkipCause::Error => Piece::of(b" error\n         ", 7),
        SkipCause::Pending => Piece::of(b" pending\n       ", 9),
        SkipCause::Direct => Piece::of(b" direct\n        ", 8),
    }
}
