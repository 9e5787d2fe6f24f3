//! Why an input is refused: the status and the pieces of the text.
ghost use Rattle.std.specs.Prelude.{◌≡◌};
ghost use Rattle.program_ending.specs.Endings.{refusal_head, refusal_name, refusal_number, refusal_status};

use itoa::Buffer;
use sleep_model::Name;

/// Why an input is refused.
#[derive(Debug, Drop)]
pub enum Refusal {
    /// A machine file is longer than 16,777,216 bytes.
    LongMachine,
    /// A machine file breaks a rule of the format: the number of the first one, and its first place.
    Broken { rule: u8, place: String },
    /// The history of the source of that name has no place left for a call.
    SourceFull(Name),
    /// A machine and its log are longer together than 268,435,456 bytes.
    LongInput,
    /// That line of a log is the first that the grammar has not, or that is missing.
    BadLine(u32),
    /// A log adds a link although the machine has as many as it may.
    TooManyLinks,
    /// A log adds a link that closes a cycle.
    LinkCycle,
    /// Lines that lock and unlock names are longer than 16,777,216 bytes.
    LongLocks,
    /// That line of them is the first of no form.
    BadLockLine(u32),
}

impl Refusal {
    /// The program's status.
    pub fn status(&self) -> u8
        ensures { result ≡ refusal_status self.now }
    {
        match self {
            Refusal::SourceFull(_) => 7,
            _ => 3,
        }
    }

    /// What the program says, before a number or a name.
    pub fn head(&self) -> &'static str
        ensures { result.now ≡ refusal_head self.now }
    {
        match self {
            Refusal::LongMachine => "machine: longer than 16777216 bytes",
            Refusal::Broken { .. } => "machine: rule ",
            Refusal::SourceFull(_) => "source full: ",
            Refusal::LongInput => "input: longer than 268435456 bytes",
            Refusal::BadLine(_) => "log: line ",
            Refusal::TooManyLinks => "log: links",
            Refusal::LinkCycle => "log: cycle",
            Refusal::LongLocks => "locks: longer than 16777216 bytes",
            Refusal::BadLockLine(_) => "locks: line ",
        }
    }

    /// The number of a rule or of a line if the refusal has one, by this buffer.
    pub fn number<'b>(&self, buffer: &'b mut Buffer) -> &'b [u8]
        ensures { result.now ≡ refusal_number self.now }
    {
        match self {
            Refusal::Broken { rule, .. } => buffer.format(*rule).as_bytes(),
            Refusal::BadLine(line) => buffer.format(*line).as_bytes(),
            Refusal::BadLockLine(line) => buffer.format(*line).as_bytes(),
            _ => b"",
        }
    }

    /// The place at which a rule is broken, or the name of a source, if the refusal has one.
    pub fn name(&self) -> &[u8]
        ensures { result.now ≡ refusal_name self.now }
    {
        match self {
            Refusal::Broken { place, .. } => place.as_bytes(),
            Refusal::SourceFull(name) => name.bytes(),
            _ => b"",
        }
    }
}
