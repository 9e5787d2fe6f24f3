//! A text is written whole, or the ending says why not.
ghost use Rattle.std.specs.Prelude.{◌≡◌};
ghost use Rattle.program_ending.specs.Streams.{Writes, stream};
ghost use Rattle.program_ending.specs.CommandEndings.{WritesResult};

use crate::ending::Ending;
use sleep_base::{ByteSink, write_all};

/// A text that the program writes, and whether it is of a run that was stuck.
#[derive(Drop)]
pub struct RunText {
    /// The bytes to be written.
    pub text: Vec<u8>,
    /// Whether the run was stuck; false for a machine file.
    pub stuck: bool,
}

/// Writes a text whole: `Done`, or `Stuck` if its run was stuck. `WriteFault` at the first write that fails:
/// a prefix of the text was written.
pub fn write_run_text<K: ByteSink>(out: &mut K, shown_text: &RunText) -> Ending
    ensures { Writes (stream (K.written out.old) (K.faults out.old)) (stream (K.written out.new) (K.faults out.new))
        shown_text.now.text.items shown_text.now.stuck result }
{
    match write_all(out, &shown_text.text) {
        Ok(()) if shown_text.stuck => Ending::Stuck,
        Ok(()) => Ending::Done,
        Err(_) => Ending::WriteFault,
    }
}

/// Writes the text, or answers how the program ends without one.
pub fn write_result<K: ByteSink>(out: &mut K, outcome: Result<Vec<u8>, Ending>) -> Ending
    ensures { WritesResult outcome (stream (K.written out.old) (K.faults out.old)) (stream (K.written out.new) (K.faults out.new)) result }
{
    match outcome {
        Ok(text) => write_run_text(out, &RunText { text, stuck: false }),
        Err(ending) => ending,
    }
}
