//! Laws of logs' texts, over every log that fits a machine whose names are spelled and different.

ghost use Rattle.std.specs.Prelude.{◌≡◌, ℕ, List};
ghost use Rattle.sleep_model.specs.declared.log.Log.{Log};
ghost use Rattle.sleep_model.specs.declared.machine.Machine.{Machine};
ghost use Rattle.sleep_model.specs.Fits.{IsWritable};
ghost use Rattle.sleep_model.specs.Text.{text};
ghost use Rattle.log_text.specs.Grammar.{IsFirstBad};
ghost use Rattle.log_text.specs.Named.{AreNamed};

/// Two logs that fit the machine and have the same text are the same log.
#[tactic(auto, using(crate::proofs::OneLog::one_log))]
pub fn log_text_is_injective()
    ensures { (m : Machine) (a b : Log) → AreNamed m → IsWritable m a → IsWritable m b → text m a ≡ text m b → a ≡ b }
{}

/// If a log fits its machine, each line of its text can be read.
#[tactic(auto, using(crate::proofs::NoBadLine::none_bad))]
pub fn written_lines_are_good()
    ensures { (m : Machine) (log : Log) → AreNamed m → IsWritable m log → (n : ℕ) → IsFirstBad m (text m log) n → ⊥ }
{}

/// A text has one first bad line at most, on any machine.
#[tactic(auto, using(crate::proofs::NoBadLine::one_first_bad))]
pub fn first_bad_line_is_one()
    ensures { (m : Machine) (bytes : List ℕ) (a b : ℕ) → IsFirstBad m bytes a → IsFirstBad m bytes b → a ≡ b }
{}
