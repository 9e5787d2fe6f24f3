//! The first rule that a file breaks, searched for rule by rule.

ghost use Rattle.std.specs.Prelude.{◌≡◌, None, option_map, IfOk};
ghost use Rattle.borrowed_json.specs.View.{view};
ghost use Rattle.file_rules.specs.Broken.{broken_view};
ghost use Rattle.file_rules.specs.Knows.{Knows};
ghost use Rattle.file_rules.specs.ValidFiles.{broken_devices, broken_form, first_in_order};

use crate::reading::machine::{first_of_form, parts_in};
use borrowed_json::Value;
use file_rules::{Broken, Known, known_of_file};
use sleep_base::Mem;
use std::alloc::Global;

/// The first rule that a file breaks.
pub(crate) fn first_broken(alloc: Global, tree: &Value<'_>) -> Result<Option<Broken>, Mem>
    ensures { IfOk result (λ b. option_map broken_view b ≡ first_in_order (view tree.now)) }
{
    match first_of_form(tree) {
        Some(broken) => Ok(Some(broken)),
        None => first_formed(alloc, tree),
    }
}

/// The first rule that a file breaks which keeps the rules on form. Only it owns the names of its things, and
/// drops them at one exit.
fn first_formed(alloc: Global, tree: &Value<'_>) -> Result<Option<Broken>, Mem>
    requires { broken_form (view tree.now) ≡ None }
    ensures { IfOk result (λ b. option_map broken_view b ≡ first_in_order (view tree.now)) }
{
    match known_of_file(alloc, tree)? {
        Ok(known) => {
            let broken = first_known(alloc, tree, &known);
            drop(known);
            broken
        }
        Err(broken) => Ok(Some(broken)),
    }
}

/// The first rule that a file with these names breaks.
fn first_known(alloc: Global, tree: &Value<'_>, known: &Known<'_>) -> Result<Option<Broken>, Mem>
    requires form { broken_form (view tree.now) ≡ None }
    requires devices { broken_devices (view tree.now) ≡ None }
    requires knows { Knows known.now (view tree.now) }
    ensures { IfOk result (λ b. option_map broken_view b ≡ first_in_order (view tree.now)) }
{
    match parts_in(alloc, tree, known)? {
        Ok(parts) => {
            drop(parts);
            Ok(None)
        }
        Err(broken) => Ok(Some(broken)),
    }
}
