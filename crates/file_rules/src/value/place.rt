//! The members of a machine file, and the places that a rule names.
ghost use Rattle.std.specs.Prelude.{◌≡◌, map};
ghost use Rattle.borrowed_json.specs.View.{view};
ghost use Rattle.borrowed_json.specs.Look.{list_in};
ghost use Rattle.file_rules.specs.Broken.{member_name};

use borrowed_json::{Value, list_in};

/// A member of a machine file.
#[derive(Clone, Copy)]
pub enum Member {
    Version,
    AlarmMs,
    Cpus,
    AutoCycles,
    Devices,
    Links,
    Syscore,
    Notifiers,
    Sources,
    Actors,
    Answers,
}

/// A place in a machine file.
#[derive(Clone, Copy)]
pub enum Place {
    Json,
    Top,
    Member(Member),
    /// An item of a list, by its number from 0.
    Item(Member, usize),
    /// An operation of an actor's script.
    Operation(usize, usize),
}

impl Member {
    /// The member's name.
    pub fn name(self) -> &'static str
        ensures { result.now ≡ member_name self }
    {
        match self {
            Member::Version => "version",
            Member::AlarmMs => "alarm_ms",
            Member::Cpus => "cpus",
            Member::AutoCycles => "auto_cycles",
            Member::Devices => "devices",
            Member::Links => "links",
            Member::Syscore => "syscore",
            Member::Notifiers => "notifiers",
            Member::Sources => "sources",
            Member::Actors => "actors",
            Member::Answers => "answers",
        }
    }
}

/// The items of a list of the file.
pub fn items<'v, 't>(tree: &'v Value<'t>, list: Member) -> &'v [Value<'t>]
    ensures { map view result.now ≡ list_in (member_name list) (view tree.now) }
{
    list_in(tree, list.name())
}
