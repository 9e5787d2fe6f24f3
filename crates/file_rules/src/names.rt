//! The names of things, and the first that comes a second time.
pub(crate) mod devices;
pub(crate) mod known;
pub(crate) mod marks;
pub(crate) mod ranks;

ghost use Rattle.std.specs.Prelude.{◌≡◌, ◌∷◌, [], not, map, bytes_eq, codes, IfOk};
ghost use Rattle.borrowed_json.specs.View.{view};
ghost use Rattle.borrowed_json.specs.Look.{text_of};
ghost use Rattle.file_rules.specs.Rules.{name_of};
ghost use Rattle.file_rules.specs.Places.{first_not_after};
ghost use Rattle.file_rules.specs.Names.{names_in, texts_in, is_among_names};
ghost use Rattle.file_rules.specs.Broken.{member_name};
ghost use Rattle.file_rules.specs.Fitting.{IsShort};

use crate::value::place::{Member, items};
use borrowed_json::{Value, text_at, text_of};
use key_index::KeyIndex;
use sleep_base::Mem;
use sleep_model::Name;
use std::alloc::Global;

/// The name that a text spells.
pub fn name_of_text(text: &str) -> Name
    requires { IsShort text.now }
    ensures { result ≡ text.now }
{
    match Name::of_bytes(text.as_bytes()) {
        Some(name) => name,
        None => unreachable!(),
    }
}

/// The names of a list of objects.
pub(crate) fn names_in<'v>(
    alloc: Global,
    tree: &Value<'v>,
    list: Member,
) -> Result<Vec<&'v str>, Mem>
    ensures { IfOk result (λ v. map (λ s. s.now) v.items ≡ names_in (member_name list) (view tree.now)) }
{
    let names = names_of(alloc, items(tree, list))?;
    Ok(names)
}

fn names_of<'v>(alloc: Global, list: &[Value<'v>]) -> Result<Vec<&'v str>, Mem>
    ensures { IfOk result (λ v. map (λ s. s.now) v.items ≡ map name_of (map view list.now)) }
{
    let mut names = Vec::with_capacity(alloc, list.len())?;
    for value in list {
        names.push(text_at(value, "name"))?;
    }
    Ok(names)
}

/// The names of a list of names.
pub(crate) fn texts_in<'v>(
    alloc: Global,
    tree: &Value<'v>,
    list: Member,
) -> Result<Vec<&'v str>, Mem>
    ensures { IfOk result (λ v. map (λ s. s.now) v.items ≡ texts_in (member_name list) (view tree.now)) }
{
    let names = texts_of(alloc, items(tree, list))?;
    Ok(names)
}

fn texts_of<'v>(alloc: Global, list: &[Value<'v>]) -> Result<Vec<&'v str>, Mem>
    ensures { IfOk result (λ v. map (λ s. s.now) v.items ≡ map text_of (map view list.now)) }
{
    let mut names = Vec::with_capacity(alloc, list.len())?;
    for value in list {
        names.push(text_of(value))?;
    }
    Ok(names)
}

/// The first name that comes before.
pub(crate) fn first_repeated(names: &KeyIndex<&str>) -> Option<usize>
    ensures { result ≡ first_not_after (λ before name. not (is_among_names before name)) [] 0 (map (λ s. s.now) names.now) }
{
    crate::names::ranks::first_repeated(names)
}
