//! Single lines: taken piece by piece if they are what most lines are, else read leniently and then compared
//! with what they have to spell.

ghost use Rattle.std.specs.Prelude.{◌≡◌, ◌≢◌, ◌++◌, [], ℕ, true, IfOk, IfSome, IfNone};
ghost use Rattle.std.specs.Str.{bytes_eq};
ghost use Rattle.sleep_model.specs.Text.{body, entry_line, newline, source_line, source_names, waiting_line};
ghost use Rattle.sleep_model.specs.Fits.{fits_entry, fits_kind, fits_stats, fits_script, fits_cause};
ghost use Rattle.log_words.specs.Front.{front_text};
ghost use Rattle.log_text.specs.Cutting.{without_last};
ghost use Rattle.log_text.specs.Grammar.{lines, IsBadEntry, IsBadSource, IsEntryLine, IsSourceLine, IsStuckLine};
ghost use Rattle.log_text.specs.Named.{AreNamed};

use crate::reading::ends::{stats_in, waiting_in};
use crate::reading::entries::entry_in;
use crate::reading::kinds::kind_in;
use crate::reading::last_named::LastNamed;
use crate::reading::lines::first_line;
use crate::reading::machine_names::MachineNames;
use crate::reading::number::{digits_first, digits32_first};
use crate::reading::pieces::after_piece;
use crate::reading::quick::kind_first;
use crate::reading::quick_actors::actor_first;
use crate::writing::writer::{LineWriter, put_entry, put_entry_text, put_source, put_waiting};
use log_words::LineFront;
use sleep_base::Mem;
use sleep_model::{Entry, EventNow, Kind, Stats, Waiting};
use std::alloc::Global;

/// All but the last byte.
fn without_last(text: &[u8]) -> &[u8]
    ensures { result.now ≡ without_last text.now }
{
    &text[..text.len().saturating_sub(1)]
}

/// The word that a text begins with. The caller compares its text.
#[inline]
fn word_first(text: &[u8]) -> Option<EventNow> {
    let (inpr, rest) = digits32_first(text)?;
    let (count, rest) = digits32_first(rest)?;
    let (hard, _) = digits32_first(rest)?;
    Some(EventNow { inpr, count, hard })
}

/// Reads lines of a machine's log, each for itself.
#[derive(Drop)]
pub struct LineReader {
    spelled: LineWriter,
    front: LineFront,
    last: LastNamed,
}

impl LineReader {
    /// A reader of lines. `Mem` if there is no memory for it.
    pub fn new(alloc: Global) -> Result<Self, Mem> {
        let front = LineFront::start();
        let spelled = LineWriter::with_room(alloc, 0)?;
        Ok(LineReader {
            spelled,
            front,
            last: LastNamed::first(),
        })
    }

    /// Whether the entry spells the line.
    fn is_entry(
        &mut self,
        machine_names: &MachineNames,
        entry: Entry,
        line: &[u8],
    ) -> Result<bool, Mem>
        ensures { IfOk result (λ b. b ≡ bytes_eq (entry_line machine_names.now entry) line.now) }
    {
        self.spelled.clear();
        self.front.move_to(entry.time, entry.now);
        put_entry(&mut self.spelled, machine_names.names(), &self.front, entry)?;
        self.spelled.is(line)
    }

    /// The entry of a line, which fits the machine. None if it is no entry's line.
    #[tactic(auto, using(crate::proofs::Readable::no_entry, crate::proofs::Readable::other_entry, crate::proofs::Readable::same_bytes))]
    pub fn entry(&mut self, machine_names: &MachineNames, line: &[u8]) -> Result<Option<Entry>, Mem>
        ensures fits { IfOk result (λ o. IfSome o (λ e. fits_entry machine_names.now e ≡ true)) }
        ensures line { IfOk result (λ o. IfSome o (λ e. line.now ≡ entry_line machine_names.now e)) }
        ensures none { IfOk result (λ o. IfNone o (AreNamed machine_names.now → IsEntryLine machine_names.now line.now → ⊥)) }
    {
        let text = without_last(line);
        match entry_in(machine_names, text) {
            None => Ok(None),
            Some(entry) => {
                let same = self.is_entry(machine_names, entry, line)?;
                if same { Ok(Some(entry)) } else { Ok(None) }
            }
        }
    }

    /// What follows the moment and the word that a text begins with, which the front then has: mostly
    /// those of the line before. None if the text begins otherwise.
    fn after_front<'a>(&mut self, text: &'a [u8]) -> Option<&'a [u8]>
        ensures { IfSome result (λ rest. text.now ≡ front_text self.new.front.time self.new.front.word ++ rest.now) }
    {
        if let Some(rest) = after_piece(text, self.front.text().as_bytes()) {
            return Some(rest);
        }
        let (time, rest) = digits_first(text)?;
        let now = word_first(rest)?;
        self.front.move_to(time, now);
        after_piece(text, self.front.text().as_bytes())
    }

    /// Whether what an entry says spells a line's end.
    fn is_same_text(
        &mut self,
        machine_names: &MachineNames,
        kind: Kind,
        text: &[u8],
    ) -> Result<bool, Mem>
        ensures { IfOk result (λ b. b ≡ bytes_eq (body machine_names.now kind ++ newline) text.now) }
    {
        self.spelled.clear();
        put_entry_text(&mut self.spelled, machine_names.names(), kind)?;
        self.spelled.is(text)
    }

    /// What a text begins with, to the end of its line, and what follows it. None if it is nothing.
    #[inline(never)]
    #[tactic(auto, using(crate::proofs::Readable::same_bytes))]
    fn other_first<'a>(
        &mut self,
        machine_names: &MachineNames,
        text: &'a [u8],
    ) -> Result<Option<(Kind, &'a [u8])>, Mem>
        ensures text { IfOk result (λ o. IfSome o (λ r. text.now ≡ body machine_names.now r.0 ++ newline ++ r.1.now)) }
        ensures fits { IfOk result (λ o. IfSome o (λ r. fits_kind machine_names.now r.0 ≡ true)) }
    {
        if text.is_empty() {
            return Ok(None);
        }
        let (line, rest) = first_line(text);
        match kind_in(machine_names, without_last(line)) {
            None => Ok(None),
            Some(kind) => {
                let same = self.is_same_text(machine_names, kind, line)?;
                if same {
                    Ok(Some((kind, rest)))
                } else {
                    Ok(None)
                }
            }
        }
    }

    /// What a text begins with, to the end of its line, and what follows it: mostly something of a
    /// device.
    #[inline(always)]
    fn first_of_text<'a>(
        &mut self,
        machine_names: &MachineNames,
        text: &'a [u8],
    ) -> Result<Option<(Kind, &'a [u8])>, Mem>
        ensures text { IfOk result (λ o. IfSome o (λ r. text.now ≡ body machine_names.now r.0 ++ newline ++ r.1.now)) }
        ensures fits { IfOk result (λ o. IfSome o (λ r. fits_kind machine_names.now r.0 ≡ true)) }
    {
        let Some((kind, rest)) = kind_first(machine_names, &self.last, text) else {
            // Unpacked apart, so that what most lines say is not read and written once more.
            return Ok(self.other_first(machine_names, text)?);
        };
        self.last.note_kind(kind);
        Ok(Some((kind, rest)))
    }

    /// The entry of a text's first line after its front, and what follows the line.
    #[inline(always)]
    #[tactic(auto, using(crate::proofs::NextEntry::entry_injective))]
    fn made_first<'a>(
        &mut self,
        machine_names: &MachineNames,
        text: &'a [u8],
    ) -> Result<Option<(Entry, &'a [u8])>, Mem>
        ensures text { IfOk result (λ o. IfSome o (λ r.
            front_text self.old.front.time self.old.front.word ++ text.now ≡ entry_line machine_names.now r.0 ++ r.1.now)) }
        ensures fits { IfOk result (λ o. IfSome o (λ r. fits_entry machine_names.now r.0 ≡ true)) }
    {
        let (time, now) = (self.front.time(), self.front.word());
        let Some((actor, entry_text)) = actor_first(machine_names, &self.last, text) else {
            return Ok(None);
        };
        self.last.note_actor(actor);
        match self.first_of_text(machine_names, entry_text)? {
            None => Ok(None),
            Some((kind, rest)) => Ok(Some((
                Entry {
                    time,
                    now,
                    actor,
                    kind,
                },
                rest,
            ))),
        }
    }

    /// The entry of a text's first line, and what follows the line, read at one go. None also for some
    /// lines that few logs have.
    #[inline(always)]
    fn entry_first<'a>(
        &mut self,
        machine_names: &MachineNames,
        text: &'a [u8],
    ) -> Result<Option<(Entry, &'a [u8])>, Mem>
        ensures text { IfOk result (λ o. IfSome o (λ r. text.now ≡ entry_line machine_names.now r.0 ++ r.1.now)) }
        ensures fits { IfOk result (λ o. IfSome o (λ r. fits_entry machine_names.now r.0 ≡ true)) }
    {
        match self.after_front(text) {
            None => Ok(None),
            Some(made) => self.made_first(machine_names, made),
        }
    }

    /// The same by the whole line, also for lines that few logs have. None if it is no entry's.
    #[inline(never)]
    #[tactic(auto, using(crate::proofs::NextEntry::no_entry_next))]
    fn entry_of_line<'a>(
        &mut self,
        machine_names: &MachineNames,
        text: &'a [u8],
    ) -> Result<Option<(Entry, &'a [u8])>, Mem>
        requires { text.now ≢ [] }
        ensures text { IfOk result (λ o. IfSome o (λ r. text.now ≡ entry_line machine_names.now r.0 ++ r.1.now)) }
        ensures fits { IfOk result (λ o. IfSome o (λ r. fits_entry machine_names.now r.0 ≡ true)) }
        ensures none { IfOk result (λ o. IfNone o (AreNamed machine_names.now → (n bad : ℕ) →
            IsBadSource machine_names.now (source_names machine_names.now) (lines text.now) n bad → IsBadEntry machine_names.now (lines text.now) n bad)) }
    {
        let (line, rest) = first_line(text);
        match self.entry(machine_names, line)? {
            None => Ok(None),
            Some(entry) => Ok(Some((entry, rest))),
        }
    }

    /// The entry of a text's first line, and what follows the line. None if it is no entry's.
    #[inline(always)]
    pub fn next_entry<'a>(
        &mut self,
        machine_names: &MachineNames,
        text: &'a [u8],
    ) -> Result<Option<(Entry, &'a [u8])>, Mem>
        requires { text.now ≢ [] }
        ensures text { IfOk result (λ o. IfSome o (λ r. text.now ≡ entry_line machine_names.now r.0 ++ r.1.now)) }
        ensures fits { IfOk result (λ o. IfSome o (λ r. fits_entry machine_names.now r.0 ≡ true)) }
        ensures none { IfOk result (λ o. IfNone o (AreNamed machine_names.now → (n bad : ℕ) →
            IsBadSource machine_names.now (source_names machine_names.now) (lines text.now) n bad → IsBadEntry machine_names.now (lines text.now) n bad)) }
    {
        let Some((entry, rest)) = self.entry_first(machine_names, text)? else {
            // Unpacked apart, as above.
            return Ok(self.entry_of_line(machine_names, text)?);
        };
        Ok(Some((entry, rest)))
    }

    /// Whether the statistics of the source of that name spell the line.
    fn is_source(&mut self, name: &[u8], stats: &Stats, line: &[u8]) -> Result<bool, Mem>
        ensures { IfOk result (λ b. b ≡ bytes_eq (source_line name.now stats.now) line.now) }
    {
        self.spelled.clear();
        put_source(&mut self.spelled, name, stats)?;
        self.spelled.is(line)
    }

    /// The statistics of a line of the source of that name. None if it is no such line.
    #[tactic(auto, using(crate::proofs::Readable::no_source, crate::proofs::Readable::other_source, crate::proofs::Readable::short_source, crate::proofs::Readable::same_bytes))]
    pub fn source(&mut self, name: &[u8], line: &[u8]) -> Result<Option<Stats>, Mem>
        ensures fits { IfOk result (λ o. IfSome o (λ s. fits_stats s ≡ true)) }
        ensures line { IfOk result (λ o. IfSome o (λ s. line.now ≡ source_line name.now s)) }
        ensures none { IfOk result (λ o. IfNone o (IsSourceLine name.now line.now → ⊥)) }
    {
        let head = 8 + name.len();
        if line.len() < head {
            return Ok(None);
        }
        let (_, numbers) = line.split_at(head);
        match stats_in(without_last(numbers)) {
            None => Ok(None),
            Some(stats) => {
                let same = self.is_source(name, &stats, line)?;
                if same { Ok(Some(stats)) } else { Ok(None) }
            }
        }
    }

    /// Whether the script that never exits spells the line.
    fn is_stuck(
        &mut self,
        machine_names: &MachineNames,
        waiting: &Waiting,
        line: &[u8],
    ) -> Result<bool, Mem>
        ensures { IfOk result (λ b. b ≡ bytes_eq (waiting_line machine_names.now waiting.now) line.now) }
    {
        self.spelled.clear();
        put_waiting(&mut self.spelled, machine_names.names(), waiting)?;
        self.spelled.is(line)
    }

    /// The script of the machine that never exits that a line names. None if it is no such line.
    #[tactic(auto, using(crate::proofs::Readable::no_stuck, crate::proofs::Readable::other_stuck, crate::proofs::Readable::short_stuck, crate::proofs::Readable::same_bytes))]
    pub fn stuck(
        &mut self,
        machine_names: &MachineNames,
        line: &[u8],
    ) -> Result<Option<Waiting>, Mem>
        ensures script { IfOk result (λ o. IfSome o (λ w. fits_script machine_names.now w.actor ≡ true)) }
        ensures cause { IfOk result (λ o. IfSome o (λ w. fits_cause machine_names.now w.why ≡ true)) }
        ensures line { IfOk result (λ o. IfSome o (λ w. line.now ≡ waiting_line machine_names.now w)) }
        ensures none { IfOk result (λ o. IfNone o (AreNamed machine_names.now → IsStuckLine machine_names.now line.now → ⊥)) }
    {
        if line.len() < 6 {
            return Ok(None);
        }
        let (_, text) = line.split_at(6);
        match waiting_in(machine_names, without_last(text)) {
            None => Ok(None),
            Some(waiting) => {
                let same = self.is_stuck(machine_names, &waiting, line)?;
                if same { Ok(Some(waiting)) } else { Ok(None) }
            }
        }
    }
}
