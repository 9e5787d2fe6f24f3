//! The marks of a file's scripts, which `post` and `wait` name.

ghost use Rattle.std.specs.Prelude.{◌≡◌, ◌++◌, [], map, IfOk, OnOk};
ghost use Rattle.std.specs.List.{flat_map};
ghost use Rattle.borrowed_json.specs.View.{view};
ghost use Rattle.borrowed_json.specs.Look.{list_in};
ghost use Rattle.file_rules.specs.Operations.{marks_of, first_occurrences, whole_marks};
ghost use Rattle.file_rules.specs.Knows.{texts};
ghost use Rattle.file_rules.specs.Marks.{marks_of_script};

use crate::names::ranks::is_before;
use crate::value::place::{Member, items};
use borrowed_json::{Value, list_in, word_at};
use key_index::KeyIndex;
use sleep_base::Mem;
use std::alloc::Global;

/// Adds the marks that a script names.
fn add_marks<'v>(marks: &mut Vec<&'v str>, script: &[Value<'v>]) -> Result<(), Mem>
    ensures { OnOk result (texts marks.new.items ≡ texts marks.old.items ++ marks_of (map view script.now)) }
{
    for operation in script {
        if let Some(mark) = word_at(operation, "mark") {
            marks.push(mark)?;
        }
    }
    Ok(())
}

/// The marks of actors, one for each time that one is named.
fn marks_of<'v>(alloc: Global, actors: &[Value<'v>]) -> Result<Vec<&'v str>, Mem>
    ensures { IfOk result (λ v. texts v.items ≡ flat_map marks_of_script (map view actors.now)) }
{
    let mut marks = Vec::new(alloc);
    for actor in actors {
        add_marks(&mut marks, list_in(actor, "script"))?;
    }
    Ok(marks)
}

/// Each name only at its first position.
fn first_occurrences<'v>(alloc: Global, names: &KeyIndex<&'v str>) -> Result<Vec<&'v str>, Mem>
    ensures { IfOk result (λ v. texts v.items ≡ first_occurrences [] (texts names.now)) }
{
    let mut first = Vec::new(alloc);
    for (i, name) in names.keys().iter().enumerate() {
        if !is_before(names, name, i) {
            first.push(*name)?;
        }
    }
    Ok(first)
}

/// The marks of a file, in the order of their first use.
pub(crate) fn marks_in<'v>(alloc: Global, tree: &Value<'v>) -> Result<Vec<&'v str>, Mem>
    ensures { IfOk result (λ v. texts v.items ≡ whole_marks (view tree.now)) }
{
    let marks = marks_of(alloc, items(tree, Member::Actors))?;
    let marks = KeyIndex::new(alloc, marks)?;
    first_occurrences(alloc, &marks)
}
