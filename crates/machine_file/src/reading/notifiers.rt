//! The notifiers that a file spells.

ghost use Rattle.std.specs.Prelude.{◌≡◌, ◌≤◌, All, Some, map, length, codes, IfOk, option_and_then, true};
ghost use Rattle.borrowed_json.specs.View.{view};
ghost use Rattle.serde_json.specs.Find.{as_number, as_integer};
ghost use Rattle.borrowed_json.specs.Look.{may_have, is_bounded};
ghost use Rattle.file_rules.specs.Whole.{priority_of, whole_notifier};
ghost use Rattle.file_rules.specs.Fitting.{FitsNotifier};

use borrowed_json::{Value, as_i64, get, text_at};
use file_rules::name_of_text;
use sleep_base::Mem;
use sleep_model::Notifier;
use std::alloc::Global;

/// A number from -1000 to 1000.
fn bounded_of(value: &Value<'_>) -> i32
    requires { is_bounded 1000 (view value.now) ≡ true }
    ensures { option_and_then as_integer (as_number (view value.now)) ≡ Some result }
{
    match as_i64(value) {
        Some(number) => number as i32,
        None => unreachable!(),
    }
}

fn priority_of(notifier: &Value<'_>) -> i32
    requires { may_have (codes "priority") (is_bounded 1000) (view notifier.now) ≡ true }
    ensures { result ≡ priority_of (view notifier.now) }
{
    match get(notifier, "priority") {
        Some(value) => bounded_of(value),
        None => 0,
    }
}

fn notifier_of(notifier: &Value<'_>) -> Notifier
    requires { FitsNotifier (view notifier.now) }
    ensures { result ≡ whole_notifier (view notifier.now) }
{
    Notifier {
        name: name_of_text(text_at(notifier, "name")),
        priority: priority_of(notifier),
    }
}

/// The notifiers that these values spell.
pub(crate) fn notifiers_of(alloc: Global, notifiers: &[Value<'_>]) -> Result<Vec<Notifier>, Mem>
    requires { All FitsNotifier (map view notifiers.now) }
    ensures { IfOk result (λ v. v.items ≡ map whole_notifier (map view notifiers.now)) }
{
    let mut all = Vec::with_capacity(alloc, notifiers.len())?;
    for notifier in notifiers {
        all.push(notifier_of(notifier))?;
    }
    Ok(all)
}
