//! The words by which logs and machine files spell what a machine has, each in one row.

ghost use Rattle.std.specs.Prelude.{◌≡◌, ◌≢◌, IfSome, IfNone};
ghost use Rattle.sleep_model.specs.declared.entry.Group.{Group};
ghost use Rattle.sleep_model.specs.declared.entry.SkipCause.{SkipCause};
ghost use Rattle.sleep_model.specs.declared.entry.State.{State};
ghost use Rattle.sleep_model.specs.declared.machine.PlatDo.{PlatDo};
ghost use Rattle.sleep_model.specs.declared.machine.PlatUndo.{PlatUndo};
ghost use Rattle.sleep_model.specs.declared.machine.TaskKind.{TaskKind};
ghost use Rattle.sleep_model.specs.Text.{kind_word, group_word, cause_text, state_word, down_word, up_word, link_word, runtime_word};

use crate::{Group, PlatDo, PlatUndo, SkipCause, State, TaskKind};

/// The word of a value, or the value of a word, by a table with a row for each value.
macro_rules! by_word {
    (name of $from:expr; $kind:ident; $($value:ident $word:literal;)*) => {
        match $from { $($kind::$value => $word,)* }
    };
    (named of $from:expr; $kind:ident; $($value:ident $word:literal;)*) => {{
        $(if $from == $word.as_bytes() {
            return Some($kind::$value);
        })*
        None
    }};
}

macro_rules! task_kinds {
    ($column:ident of $from:expr) => {
        by_word! { $column of $from; TaskKind;
            User "user";
            Kthread "kthread";
            NoFreeze "nofreeze";
            Irq "irq";
        }
    };
}

impl TaskKind {
    /// The kind as a machine file spells it, such as `kthread`.
    pub fn name(self) -> &'static str
        ensures { result.now ≡ kind_word self }
    {
        task_kinds!(name of self)
    }

    /// The kind whose word these bytes are. None exactly if they are no kind's word.
    pub fn of_bytes(bytes: &[u8]) -> Option<TaskKind>
        ensures found { IfSome result (λ k. bytes.now ≡ kind_word k) }
        ensures none { IfNone result ((k : TaskKind) → bytes.now ≢ kind_word k) }
    {
        task_kinds!(named of bytes)
    }
}

macro_rules! groups {
    ($column:ident of $from:expr) => {
        by_word! { $column of $from; Group;
            User "user";
            Kernel "kernel";
        }
    };
}

impl Group {
    /// The group as a log spells it.
    pub fn name(self) -> &'static str
        ensures { result.now ≡ group_word self }
    {
        groups!(name of self)
    }

    /// The group whose word these bytes are. None exactly if they are no group's word.
    pub fn of_bytes(bytes: &[u8]) -> Option<Group>
        ensures found { IfSome result (λ g. bytes.now ≡ group_word g) }
        ensures none { IfNone result ((g : Group) → bytes.now ≢ group_word g) }
    {
        groups!(named of bytes)
    }
}

macro_rules! skip_causes {
    ($column:ident of $from:expr) => {
        by_word! { $column of $from; SkipCause;
            Error "error";
            Pending "pending";
            Direct "direct";
        }
    };
}

impl SkipCause {
    /// The cause as a log spells it.
    pub fn name(self) -> &'static str
        ensures { result.now ≡ cause_text self }
    {
        skip_causes!(name of self)
    }

    /// The cause whose word these bytes are. None exactly if they are no cause's word.
    pub fn of_bytes(bytes: &[u8]) -> Option<SkipCause>
        ensures found { IfSome result (λ c. bytes.now ≡ cause_text c) }
        ensures none { IfNone result ((c : SkipCause) → bytes.now ≢ cause_text c) }
    {
        skip_causes!(named of bytes)
    }
}

macro_rules! steps_down {
    ($column:ident of $from:expr) => {
        by_word! { $column of $from; PlatDo;
            Begin "begin";
            Prepare "prepare";
            PrepareLate "prepare_late";
        }
    };
}

impl PlatDo {
    /// The platform's step as logs and machine files spell it, such as `prepare_late`.
    pub fn name(self) -> &'static str
        ensures { result.now ≡ down_word self }
    {
        steps_down!(name of self)
    }

    /// The platform's step whose word these bytes are. None exactly if they are no such word.
    pub fn of_bytes(bytes: &[u8]) -> Option<PlatDo>
        ensures found { IfSome result (λ s. bytes.now ≡ down_word s) }
        ensures none { IfNone result ((s : PlatDo) → bytes.now ≢ down_word s) }
    {
        steps_down!(named of bytes)
    }
}

macro_rules! steps_up {
    ($column:ident of $from:expr) => {
        by_word! { $column of $from; PlatUndo;
            Recover "recover";
            Wake "wake";
            Finish "finish";
            End "end";
        }
    };
}

impl PlatUndo {
    /// The platform's step up as a log spells it, such as `recover`.
    pub fn name(self) -> &'static str
        ensures { result.now ≡ up_word self }
    {
        steps_up!(name of self)
    }

    /// The platform's step up whose word these bytes are. None exactly if they are no such word.
    pub fn of_bytes(bytes: &[u8]) -> Option<PlatUndo>
        ensures found { IfSome result (λ s. bytes.now ≡ up_word s) }
        ensures none { IfNone result ((s : PlatUndo) → bytes.now ≢ up_word s) }
    {
        steps_up!(named of bytes)
    }
}

/// What autosleep is set to, as a log spells it.
pub fn state_word(state: State) -> &'static str
    ensures { result.now ≡ state_word state }
{
    match state {
        State::Mem => "mem",
        State::Off => "off",
    }
}

/// The state of a link as logs and machine files spell it (`struct device_link`, `status`).
pub fn link_word(active: bool) -> &'static str
    ensures { result.now ≡ link_word active }
{
    if active { "active" } else { "dormant" }
}

/// A runtime status as logs and machine files spell it (`pm_runtime_set_suspended`).
pub fn runtime_word(suspended: bool) -> &'static str
    ensures { result.now ≡ runtime_word suspended }
{
    if suspended { "suspended" } else { "active" }
}
