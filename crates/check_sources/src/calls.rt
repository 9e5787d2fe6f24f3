//! A list of calls on sources.

ghost use Rattle.std.specs.Prelude.{◌≡◌, ◌++◌, map, OnOk};
ghost use Rattle.sleep_model.specs.Calls.{note};
ghost use Rattle.script_plan.specs.CallPlans.{noted};

use sleep_base::Mem;
use sleep_model::{Kind, Report, SourceCall};
use std::alloc::Global;
use std::marker::Model;

/// Calls in order, each as its note in a log. Contracts see the list.
#[derive(Drop)]
pub(crate) struct Calls {
    notes: Vec<Kind>,
}

impl Model for Calls {
    ghost use Rattle.std.specs.Prelude.{List};
    ghost use Rattle.sleep_model.specs.declared.entry.Kind.{Kind};

    ghost Value = { List Kind };

    ghost view = { λ c. c.notes.items };
}

/// The note of a call on that source.
fn note(source: u32, call: SourceCall) -> Kind
    ensures { result ≡ note source call }
{
    match call {
        SourceCall::Awake => Kind::Awake(source),
        SourceCall::Relax => Kind::Relax(source),
        SourceCall::Event { ms, hard } => Kind::Event { source, ms, hard },
        SourceCall::Expire => Kind::Expire(source),
    }
}

/// The note of a report.
pub(crate) fn noted(report: Report) -> Kind
    ensures { result ≡ noted report }
{
    note(report.source, report.call)
}

impl Calls {
    ghost use Rattle.std.specs.Prelude.{◌≡◌, ◌++◌, [], length, map, slice_get, OnOk, OnErr};
    ghost use Rattle.script_plan.specs.CallPlans.{noted};

    /// No call.
    pub(crate) fn new(alloc: Global) -> Self
        ensures { result ≡ [] }
    {
        Calls {
            notes: Vec::new(alloc),
        }
    }

    /// All of them.
    pub(crate) fn as_slice(&self) -> &[Kind]
        ensures { result.now ≡ self.now }
    {
        self.notes.as_slice()
    }

    /// Puts the notes of these reports after the others. `Mem` if there is no memory for them.
    pub(crate) fn extend(&mut self, reports: &[Report]) -> Result<(), Mem>
        ensures { OnOk result (self.new ≡ self.old ++ map noted reports.now) }
    {
        for report in reports {
            self.notes.push(noted(*report))?;
        }
        Ok(())
    }
}
