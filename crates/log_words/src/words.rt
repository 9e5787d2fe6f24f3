//! The spellings of verbs, errors, phases and the other fixed words.
ghost use Rattle.std.specs.Prelude.{◌≡◌, ◌≤◌, length};
ghost use Rattle.sleep_base.specs.Errno.{name_of};
ghost use Rattle.phase_table.specs.Phases.{phase_name};
ghost use Rattle.log_words.specs.Verbs.{verb_word};
ghost use Rattle.sleep_model.specs.Text.{answer_text, cause_text, script_word, state_word, group_word, down_word, up_word};

use crate::buffer::ByteBuffer;
use crate::fixed::NO_ERROR;
use crate::spelled::Spelled;
use crate::verb::Verb;
use sleep_base::Errno;
use sleep_model::{Group, Phase, PlatDo, PlatUndo, SkipCause, State, TaskKind, state_word};

impl Spelled for Verb {
    ghost spelling = { verb_word };

    ghost most = { λ _. 16 };

    #[inline(always)]
    #[tactic(auto, using(crate::proofs::Lengths::verb_short))]
    fn put_on(self, out: &mut ByteBuffer) {
        out.put_text(self.word());
    }
}

impl Spelled for Errno {
    ghost spelling = { name_of };

    ghost most = { λ _. 16 };

    #[inline(always)]
    #[tactic(auto, using(crate::proofs::Lengths::error_short))]
    fn put_on(self, out: &mut ByteBuffer) {
        out.put_text(self.name());
    }
}

impl Spelled for Option<Errno> {
    ghost spelling = { answer_text };

    ghost most = { λ _. 16 };

    #[inline(always)]
    #[tactic(auto, using(crate::proofs::Lengths::error_short))]
    fn put_on(self, out: &mut ByteBuffer) {
        match self {
            None => out.put_text(NO_ERROR),
            Some(error) => out.put_text(error.name()),
        }
    }
}

impl Spelled for Phase {
    ghost spelling = { phase_name };

    ghost most = { λ _. 16 };

    #[inline(always)]
    #[tactic(auto, using(crate::proofs::Lengths::phase_short))]
    fn put_on(self, out: &mut ByteBuffer) {
        out.put_text(self.name());
    }
}

impl Spelled for SkipCause {
    ghost spelling = { cause_text };

    ghost most = { λ _. 16 };

    #[inline(always)]
    #[tactic(auto, using(crate::proofs::Lengths::cause_short))]
    fn put_on(self, out: &mut ByteBuffer) {
        out.put_text(self.name());
    }
}

impl Spelled for State {
    ghost spelling = { state_word };

    ghost most = { λ _. 16 };

    #[inline(always)]
    #[tactic(auto, using(crate::proofs::Lengths::state_short))]
    fn put_on(self, out: &mut ByteBuffer) {
        out.put_text(state_word(self));
    }
}

impl Spelled for Group {
    ghost spelling = { group_word };

    ghost most = { λ _. 16 };

    #[inline(always)]
    #[tactic(auto, using(crate::proofs::Lengths::group_short))]
    fn put_on(self, out: &mut ByteBuffer) {
        out.put_text(self.name());
    }
}

impl Spelled for PlatDo {
    ghost spelling = { down_word };

    ghost most = { λ _. 16 };

    #[inline(always)]
    #[tactic(auto, using(crate::proofs::Lengths::down_short))]
    fn put_on(self, out: &mut ByteBuffer) {
        out.put_text(self.name());
    }
}

impl Spelled for PlatUndo {
    ghost spelling = { up_word };

    ghost most = { λ _. 16 };

    #[inline(always)]
    #[tactic(auto, using(crate::proofs::Lengths::up_short))]
    fn put_on(self, out: &mut ByteBuffer) {
        out.put_text(self.name());
    }
}

/// What comes before a script's name.
pub fn script_word(kind: TaskKind) -> &'static str
    ensures word { result.now ≡ script_word kind }
    ensures few { length result.now ≤ 5 }
{
    match kind {
        TaskKind::Irq => "irq:",
        _ => "task:",
    }
}
