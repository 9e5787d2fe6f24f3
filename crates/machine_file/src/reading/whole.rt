//! The machine that a file spells, if it obeys the rules.

ghost use Rattle.std.specs.Prelude.{◌≡◌, map, codes, IfOk};
ghost use Rattle.borrowed_json.specs.View.{view};
ghost use Rattle.borrowed_json.specs.Look.{list_in};
ghost use Rattle.file_rules.specs.Names.{texts_in, sources_named};
ghost use Rattle.file_rules.specs.Devices.{whole_devices, whole_links};
ghost use Rattle.file_rules.specs.Operations.{whole_marks, whole_scripts};
ghost use Rattle.file_rules.specs.Answering.{whole_answers};
ghost use Rattle.file_rules.specs.Whole.{whole_notifier, whole_machine};
ghost use Rattle.file_rules.specs.Knows.{Knows, AreFew};
ghost use Rattle.file_rules.specs.Fitting.{FitsFile};
ghost use Rattle.machine_file.specs.Sound.{IsSound};
ghost use Rattle.machine_file.specs.Reading.{Reads};

use crate::ReadMachine;
use crate::reading::machine::{Behaviour, Parts};
use crate::reading::notifiers::notifiers_of;
use crate::reading::scripts::small_or;
use crate::reading::texts::names_of_texts;
use crate::rules::cycles::{Added, Linking};
use borrowed_json::{Value, number_at};
use file_rules::{Known, Member, items};
use sleep_base::{Mem, drop_for_mem};
use sleep_model::{Answer, Device, Link, ListOf, Machine, Name, Notifier, Script};
use std::alloc::Global;

fn syscore_in(alloc: Global, _tree: &Value<'_>, known: &Known<'_>) -> Result<Vec<Name>, Mem>
    requires knows { Knows known.now (view _tree.now) }
    requires fits { FitsFile (view _tree.now) }
    ensures { IfOk result (λ v. v.items ≡ texts_in (codes "syscore") (view _tree.now)) }
{
    let names = names_of_texts(alloc, known.syscore.keys())?;
    Ok(names)
}

fn notifiers_in(alloc: Global, tree: &Value<'_>) -> Result<Vec<Notifier>, Mem>
    requires { FitsFile (view tree.now) }
    ensures { IfOk result (λ v. v.items ≡ map whole_notifier (list_in (codes "notifiers") (view tree.now))) }
{
    let notifiers = notifiers_of(alloc, items(tree, Member::Notifiers))?;
    Ok(notifiers)
}

fn sources_in(alloc: Global, _tree: &Value<'_>, known: &Known<'_>) -> Result<Vec<Name>, Mem>
    requires knows { Knows known.now (view _tree.now) }
    requires fits { FitsFile (view _tree.now) }
    ensures { IfOk result (λ v. v.items ≡ sources_named (view _tree.now)) }
{
    let names = names_of_texts(alloc, known.sources.keys())?;
    Ok(names)
}

fn marks_of(alloc: Global, _tree: &Value<'_>, known: &Known<'_>) -> Result<Vec<Name>, Mem>
    requires knows { Knows known.now (view _tree.now) }
    requires fits { FitsFile (view _tree.now) }
    ensures { IfOk result (λ v. v.items ≡ whole_marks (view _tree.now)) }
{
    let names = names_of_texts(alloc, known.marks.keys())?;
    Ok(names)
}

/// Devices, syscore callbacks and notifiers.
type Things = (Vec<Device>, Vec<Name>, Vec<Notifier>);

/// The devices of a file, its syscore callbacks and its notifiers.
fn things_in(alloc: Global, tree: &Value<'_>, known: &Known<'_>) -> Result<Things, Mem>
    requires knows { Knows known.now (view tree.now) }
    requires few { AreFew known.now }
    requires fits { FitsFile (view tree.now) }
    ensures devices { IfOk result (λ t. t.0.items ≡ whole_devices (view tree.now)) }
    ensures syscore { IfOk result (λ t. t.1.items ≡ texts_in (codes "syscore") (view tree.now)) }
    ensures notifiers { IfOk result (λ t. t.2.items ≡ map whole_notifier (list_in (codes "notifiers") (view tree.now))) }
{
    let devices = Vec::from_slice(alloc, known.devices.all())?;
    let Ok(syscore) = syscore_in(alloc, tree, known) else {
        return Err(drop_for_mem(devices));
    };
    let Ok(notifiers) = notifiers_in(alloc, tree) else {
        return Err(drop_for_mem((devices, syscore)));
    };
    Ok((devices, syscore, notifiers))
}

/// The sources of a file and the marks of its scripts.
fn named_in(
    alloc: Global,
    tree: &Value<'_>,
    known: &Known<'_>,
) -> Result<(Vec<Name>, Vec<Name>), Mem>
    requires knows { Knows known.now (view tree.now) }
    requires fits { FitsFile (view tree.now) }
    ensures sources { IfOk result (λ t. t.0.items ≡ sources_named (view tree.now)) }
    ensures marks { IfOk result (λ t. t.1.items ≡ whole_marks (view tree.now)) }
{
    let sources = sources_in(alloc, tree, known)?;
    let Ok(marks) = marks_of(alloc, tree, known) else {
        return Err(drop_for_mem(sources));
    };
    Ok((sources, marks))
}

/// A file's machine, with these links, scripts and answers.
fn machine_of(
    alloc: Global,
    tree: &Value<'_>,
    known: &Known<'_>,
    links: Vec<Link>,
    actors: Vec<Script>,
    answers: Vec<Answer>,
) -> Result<Machine, Mem>
    requires knows { Knows known.now (view tree.now) }
    requires few { AreFew known.now }
    requires links { links.items ≡ whole_links (view tree.now) }
    requires scripts { actors.items ≡ whole_scripts (view tree.now) }
    requires answers { answers.items ≡ whole_answers (view tree.now) }
    requires fits { FitsFile (view tree.now) }
    ensures { IfOk result (λ m. m ≡ whole_machine (view tree.now)) }
{
    let Ok(things) = things_in(alloc, tree, known) else {
        return Err(drop_for_mem((links, actors, answers)));
    };
    let Ok(named) = named_in(alloc, tree, known) else {
        return Err(drop_for_mem((links, actors, answers, things)));
    };
    let (devices, syscore, notifiers) = things;
    let (sources, marks) = named;
    Ok(Machine {
        alarm_ms: number_at(tree, "alarm_ms").unwrap_or(1000),
        cpus: small_or(tree, "cpus", 1),
        auto_cycles: small_or(tree, "auto_cycles", 16),
        devices: ListOf::of_vec(devices),
        links: ListOf::of_vec(links),
        syscore: ListOf::of_vec(syscore),
        notifiers: ListOf::of_vec(notifiers),
        sources: ListOf::of_vec(sources),
        marks: ListOf::of_vec(marks),
        actors: ListOf::of_vec(actors),
        answers: ListOf::of_vec(answers),
    })
}

/// A file's machine, and its links added in turn.
pub(crate) fn read_of(
    alloc: Global,
    tree: &Value<'_>,
    known: &Known<'_>,
    parts: Parts,
) -> Result<ReadMachine, Mem>
    requires { IsSound (view tree.now) known.now parts }
    ensures { IfOk result (λ r. Reads (view tree.now) r) }
{
    let Parts { linking, behaviour } = parts;
    let Behaviour { scripts, answers } = behaviour;
    let Linking { links, added } = linking;
    let Added {
        links: tied,
        cycle: _,
    } = added;
    let Ok(machine) = machine_of(alloc, tree, known, links, scripts, answers) else {
        return Err(drop_for_mem(tied));
    };
    Ok(ReadMachine {
        machine,
        links: tied,
    })
}
