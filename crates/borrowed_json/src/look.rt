//! What a value says, in the words of `serde_json`.

ghost use Rattle.std.specs.Prelude.{◌≡◌, option_and_then, option_map};
ghost use Rattle.serde_json.specs.Find.{as_array, as_bool, as_i64, as_number, as_object, as_str, as_u64, get, get_member};
ghost use Rattle.serde_json.specs.View.{number_view};
ghost use Rattle.borrowed_json.specs.View.{items_view, members_view, view};

use crate::members::is_same;
use crate::tree::{Member, Value};
use serde_json::Number;

/// The text that it is; None if it is none.
#[tactic(auto, unfolding(crate::specs::View::view))]
pub fn as_str<'a>(value: &Value<'a>) -> Option<&'a str>
    ensures { option_map (λ s. s.now) result ≡ as_str (view value.now) }
{
    match value {
        Value::String(text) => Some(*text),
        _ => None,
    }
}

/// The truth value that it is; None if it is none.
#[tactic(auto, unfolding(crate::specs::View::view))]
pub fn as_bool(value: &Value<'_>) -> Option<bool>
    ensures { result ≡ as_bool (view value.now) }
{
    match value {
        Value::Bool(truth) => Some(*truth),
        _ => None,
    }
}

#[tactic(auto, unfolding(crate::specs::View::view))]
fn number_in(value: &Value<'_>) -> Option<Number>
    ensures { option_map number_view result ≡ as_number (view value.now) }
{
    match value {
        Value::Number(number) => Some(*number),
        _ => None,
    }
}

/// The whole number of 64 bits that it is, without sign, fraction and exponent; None if it is none.
pub fn as_u64(value: &Value<'_>) -> Option<u64>
    ensures { result ≡ option_and_then as_u64 (as_number (view value.now)) }
{
    number_in(value)?.as_u64()
}

/// The whole number of 64 bits and a sign that it is, without fraction and exponent; None if it is none. `-0`
/// is none.
pub fn as_i64(value: &Value<'_>) -> Option<i64>
    ensures { result ≡ option_and_then as_i64 (as_number (view value.now)) }
{
    number_in(value)?.as_i64()
}

/// The items of the array that it is; None if it is none.
#[tactic(auto, unfolding(crate::specs::View::view))]
pub fn as_array<'v, 'a>(value: &'v Value<'a>) -> Option<&'v [Value<'a>]>
    ensures { option_map (λ items. items_view items.now) result ≡ as_array (view value.now) }
{
    match value {
        Value::Array(items) => Some(*items),
        _ => None,
    }
}

/// The members of the object that it is, in the order of the text: a name may come twice, and the last one
/// counts. None if it is none.
#[tactic(auto, unfolding(crate::specs::View::view))]
pub fn as_object<'v, 'a>(value: &'v Value<'a>) -> Option<&'v [Member<'a>]>
    ensures { option_map (λ members. members_view members.now) result ≡ as_object (view value.now) }
{
    match value {
        Value::Object(members) => Some(*members),
        _ => None,
    }
}

/// What is at the name in the object that it is; None if it is none, or if the name is none of its members.
pub fn get<'v, 'a>(value: &'v Value<'a>, name: &str) -> Option<&'v Value<'a>>
    ensures { option_map (λ v. view v.now) result ≡ get name.now (view value.now) }
{
    last_named(as_object(value)?, name)
}

/// What is at the last member of that name.
fn last_named<'v, 'a>(members: &'v [Member<'a>], name: &str) -> Option<&'v Value<'a>>
    ensures { option_map (λ v. view v.now) result ≡ get_member name.now (members_view members.now) }
{
    let mut left = members.len();
    while left > 0 {
        left -= 1;
        let member = &members[left];
        if is_same(member.0, name) {
            return Some(&member.1);
        }
    }
    None
}
