//! How the program ends: the status and the pieces of the text on standard error.
ghost use Rattle.std.specs.Prelude.{◌≡◌};
ghost use Rattle.program_ending.specs.Endings.{colon_of, head_of, name_of, number_of, status_of, tail_of};

use crate::refusal::Refusal;
use itoa::Buffer;

/// How the program ends.
#[derive(Debug, Drop)]
pub enum Ending {
    /// The text was written: a machine file, or that of a run in which nothing was left to do, or that for an
    /// input.
    Done,
    /// The text was written, of a run in which nobody went on.
    Stuck,
    /// The text was written, of a log that is not legal and finished.
    Illegal,
    /// The words are of no form.
    NoForm,
    /// A read failed.
    ReadFault,
    /// A write of the text failed.
    WriteFault,
    /// The input is refused.
    Refused(Refusal),
    /// There was no memory.
    NoMemory,
}

impl Ending {
    /// The program's status.
    pub fn status(&self) -> u8
        ensures { result ≡ status_of self.now }
    {
        match self {
            Ending::Done => 0,
            Ending::Illegal => 1,
            Ending::NoForm => 2,
            Ending::ReadFault => 4,
            Ending::WriteFault => 5,
            Ending::Stuck => 6,
            Ending::Refused(refusal) => refusal.status(),
            Ending::NoMemory => 8,
        }
    }

    /// What the program says on standard error, before a number or a name.
    pub fn head(&self) -> &'static str
        ensures { result.now ≡ head_of self.now }
    {
        match self {
            Ending::Done | Ending::Stuck | Ending::Illegal => "",
            Ending::NoForm =>
                "usage: run [--workers N] or gen SEED DEVICES or soak SEED DEVICES or check or idle WAKERS EVENTS SESSIONS [--workers N] or locks or stats\n",
            Ending::ReadFault => "read fault\n",
            Ending::WriteFault => "write fault\n",
            Ending::Refused(refusal) => refusal.head(),
            Ending::NoMemory => "want of memory\n",
        }
    }

    /// The number of a rule or of a line if the ending has one, by this buffer.
    pub fn number<'b>(&self, buffer: &'b mut Buffer) -> &'b [u8]
        ensures { result.now ≡ number_of self.now }
    {
        match self {
            Ending::Refused(refusal) => refusal.number(buffer),
            _ => b"",
        }
    }

    /// What it says between a rule's number and its place.
    pub fn colon(&self) -> &'static str
        ensures { result.now ≡ colon_of self.now }
    {
        match self {
            Ending::Refused(Refusal::Broken { .. }) => ": ",
            _ => "",
        }
    }

    /// The place at which a rule is broken, or the name of a source, if the ending has one.
    pub fn name(&self) -> &[u8]
        ensures { result.now ≡ name_of self.now }
    {
        match self {
            Ending::Refused(refusal) => refusal.name(),
            _ => b"",
        }
    }

    /// What it says after all that: the end of a refusal's line.
    pub fn tail(&self) -> &'static str
        ensures { result.now ≡ tail_of self.now }
    {
        match self {
            Ending::Refused(_) => "\n",
            _ => "",
        }
    }
}
