//! The state that lines are carried out on: the known locks, the moment, and the text so far.

use crate::cut::first_line;
use crate::fault::LinesFault;
use crate::text::{answer_text, push_names, push_sources, push_text};
use crate::verb::{LockVerb, rest, verb_of};
use sleep_model::Name;
use std::alloc::Global;
use std::marker::Model;
use std::sync::Wait;
use wake_locks::{LockAnswer, WakeLocks};
use wakeup_source::MOST_ENTRIES;

/// What is so after some lines: the known locks, the moment in ms, and the text so far.
#[derive(Drop)]
pub(crate) struct LineRunner {
    locks: WakeLocks<MOST_ENTRIES>,
    now: u64,
    shown_text: Vec<u8>,
    /// The names that were shown last, whose room is used again.
    names: Vec<Name>,
}

impl Model for LineRunner {
    ghost use Rattle.lock_commands.specs.Steps.{LinesState};

    ghost Value = { LinesState };

    ghost view = { λ b. record { locks = b.locks; now = b.now; shown_text = b.shown_text.items } };
}

ghost use Rattle.std.specs.Prelude.{◌≡◌, ◌≤◌, ◌+◌, ◌*◌, ◌^◌, ◌++◌, true, Ok, length, IfOk, IfErr, OnOk};
ghost use Rattle.std.specs.List.{list_all};
ghost use Rattle.wake_locks.specs.Counted.{AllAgree};
ghost use Rattle.wake_locks.specs.Locks.{ExpiriesAreDue};
ghost use Rattle.wake_locks.specs.Writes.{asked_lock, asked_unlock};
ghost use Rattle.lock_commands.specs.declared.fault.LinesFault.TheVariants as fault;
ghost use Rattle.lock_commands.specs.Lines.{lines};
ghost use Rattle.lock_commands.specs.Verbs.{is_line, IsShort};
ghost use Rattle.lock_commands.specs.Answers.{source_lines};
ghost use Rattle.lock_commands.specs.Steps.{IsRefusalOfLines, carried, carried_all, carried_line, first_state, shown_text, shown, waited, written};

impl LineRunner {
    /// No lock is known, at the moment 0.
    pub(crate) fn new(alloc: Global) -> Self
        ensures { result ≡ first_state }
    {
        LineRunner {
            locks: WakeLocks::new(alloc),
            now: 0,
            shown_text: Vec::new(alloc),
            names: Vec::new(alloc),
        }
    }

    /// Says what a write answered.
    fn say(&mut self, answer: LockAnswer) -> Result<(), LinesFault>
        ensures done { OnOk result (self.new ≡ shown_text answer self.old) }
        ensures refused { IfErr result (λ e. e ≡ fault.Mem) }
    {
        push_text(&mut self.shown_text, answer_text(answer))?;
        Ok(())
    }

    /// A write to `wake_lock`.
    fn lock<R: Wait>(&mut self, rt: &R, text: &[u8]) -> Result<(), LinesFault>
        requires timely { ExpiriesAreDue self.old.now self.old.locks }
        requires small { self.old.now ≤ 2 ^ 63 }
        ensures done { OnOk result (written (asked_lock text.now self.old.locks) self.old ≡ Ok self.new) }
        ensures refused { IfErr result (IsRefusalOfLines (written (asked_lock text.now self.old.locks) self.old)) }
        ensures timely { OnOk result (ExpiriesAreDue self.new.now self.new.locks) }
        ensures soon { OnOk result (self.new.now ≡ self.old.now) }
    {
        let answer = self.locks.wake_lock(rt, text, self.now)?;
        self.say(answer)
    }

    /// A write to `wake_unlock`.
    fn unlock<R: Wait>(&mut self, rt: &R, text: &[u8]) -> Result<(), LinesFault>
        requires timely { ExpiriesAreDue self.old.now self.old.locks }
        requires small { self.old.now ≤ 2 ^ 63 }
        ensures done { OnOk result (written (asked_unlock text.now self.old.locks) self.old ≡ Ok self.new) }
        ensures refused { IfErr result (IsRefusalOfLines (written (asked_unlock text.now self.old.locks) self.old)) }
        ensures timely { OnOk result (ExpiriesAreDue self.new.now self.new.locks) }
        ensures soon { OnOk result (self.new.now ≡ self.old.now) }
    {
        let answer = self.locks.wake_unlock(rt, text, self.now)?;
        self.say(answer)
    }

    /// Lets a time in ms go by: each expiry until then comes at its own moment.
    fn wait<R: Wait>(&mut self, rt: &R, ms: u64) -> Result<(), LinesFault>
        requires timely { ExpiriesAreDue self.old.now self.old.locks }
        requires small { self.old.now + ms ≤ 2 ^ 63 }
        ensures done { OnOk result (waited ms self.old ≡ Ok self.new) }
        ensures refused { IfErr result (IsRefusalOfLines (waited ms self.old)) }
        ensures timely { OnOk result (ExpiriesAreDue self.new.now self.new.locks) }
        ensures soon { OnOk result (self.new.now ≡ self.old.now + ms) }
    {
        let to = self.now + ms;
        self.locks.advance(rt, to)?;
        self.now = to;
        Ok(())
    }

    /// Shows the names that are active, or those that are not, after this word.
    fn show(&mut self, word: &str, active: bool) -> Result<(), LinesFault>
        ensures done { OnOk result (self.new ≡ shown word.now active self.old) }
        ensures refused { IfErr result (λ e. e ≡ fault.Mem) }
    {
        self.locks.list_names(active, &mut self.names)?;
        push_names(&mut self.shown_text, word, self.names.as_slice())?;
        Ok(())
    }

    /// Does what a line asks for.
    fn carry<R: Wait>(&mut self, rt: &R, verb: LockVerb, text: &[u8]) -> Result<(), LinesFault>
        requires timely { ExpiriesAreDue self.old.now self.old.locks }
        requires small { self.old.now + 86400000 ≤ 2 ^ 63 }
        requires few { IsShort verb }
        ensures done { OnOk result (carried verb text.now self.old ≡ Ok self.new) }
        ensures refused { IfErr result (IsRefusalOfLines (carried verb text.now self.old)) }
        ensures timely { OnOk result (ExpiriesAreDue self.new.now self.new.locks) }
        ensures soon { OnOk result (self.new.now ≤ self.old.now + 86400000) }
    {
        match verb {
            LockVerb::Lock => self.lock(rt, text),
            LockVerb::Unlock => self.unlock(rt, text),
            LockVerb::After(ms) => self.wait(rt, ms),
            LockVerb::Active => self.show("active", true),
            LockVerb::Inactive => self.show("inactive", false),
        }
    }

    /// Does what a line of a form asks for.
    fn carry_line<R: Wait>(&mut self, rt: &R, line: &[u8]) -> Result<(), LinesFault>
        requires timely { ExpiriesAreDue self.old.now self.old.locks }
        requires small { self.old.now + 86400000 ≤ 2 ^ 63 }
        requires good { is_line line.now ≡ true }
        ensures done { OnOk result (carried_line line.now self.old ≡ Ok self.new) }
        ensures refused { IfErr result (IsRefusalOfLines (carried_line line.now self.old)) }
        ensures timely { OnOk result (ExpiriesAreDue self.new.now self.new.locks) }
        ensures soon { OnOk result (self.new.now ≤ self.old.now + 86400000) }
    {
        match verb_of(line) {
            Some(verb) => self.carry(rt, verb, rest(line)),
            None => unreachable!(),
        }
    }

    /// Does what lines of a form ask for, one after another.
    pub(crate) fn carry_lines<R: Wait>(&mut self, rt: &R, bytes: &[u8]) -> Result<(), LinesFault>
        requires timely { ExpiriesAreDue self.old.now self.old.locks }
        requires small { self.old.now + 86400000 * length bytes.now ≤ 2 ^ 62 }
        requires good { list_all is_line (lines bytes.now) ≡ true }
        ensures done { OnOk result (carried_all (lines bytes.now) self.old ≡ Ok self.new) }
        ensures refused { IfErr result (IsRefusalOfLines (carried_all (lines bytes.now) self.old)) }
        ensures timely { OnOk result (ExpiriesAreDue self.new.now self.new.locks) }
        ensures small { OnOk result (self.new.now ≤ 2 ^ 62) }
    {
        let mut left = bytes;
        while !left.is_empty() {
            let (line, after) = first_line(left);
            self.carry_line(rt, line)?;
            left = after;
        }
        Ok(())
    }

    /// The whole text so far, and then a line for the source of each known lock.
    pub(crate) fn finish(self) -> Result<Vec<u8>, LinesFault>
        requires timely { ExpiriesAreDue self.now self.locks }
        requires small { self.now ≤ 2 ^ 62 }
        ensures done { IfOk result (λ shown_text. shown_text.items ≡ self.shown_text ++ source_lines self.now self.locks) }
        ensures agree { OnOk result (AllAgree self.locks) }
        ensures refused { IfErr result (λ e. e ≡ fault.Mem) }
    {
        let LineRunner {
            locks,
            now,
            shown_text,
            ..
        } = self;
        let all = locks.all_stats(now)?;
        let mut out = shown_text;
        push_sources(&mut out, &all)?;
        Ok(out)
    }
}
