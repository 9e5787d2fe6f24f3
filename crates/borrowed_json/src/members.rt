//! Tests of one JSON value, and what it has at a name.

ghost use Rattle.std.specs.Prelude.{◌≡◌, ◌≤◌, ◌==◌, map, bytes_eq, option_and_then, option_copied, option_map};
ghost use Rattle.std.specs.List.{list_all, list_any};
ghost use Rattle.serde_json.specs.Find.{as_array, get};
ghost use Rattle.borrowed_json.specs.View.{view, items_view};
ghost use Rattle.borrowed_json.specs.Look.{is_some_and, is_none_or, is_number, is_text, is_list, has_only, text_of, text_at, list_at, must_have, may_have, has_text, list_in, number_at, word_at, truth_at, is_string, is_truth, is_within, is_bounded, is_one_of};

use crate::look::{as_array, as_bool, as_i64, as_object, as_str, as_u64, get};
use crate::tree::{Member, Value};

// ---- single values

/// Whether it is a text.
pub fn is_string(value: &Value<'_>) -> bool
    ensures { result ≡ is_string (view value.now) }
{
    as_str(value).is_some()
}

fn is_truth(value: &Value<'_>) -> bool
    ensures { result ≡ is_truth (view value.now) }
{
    as_bool(value).is_some()
}

fn is_list(value: &Value<'_>) -> bool
    ensures { result ≡ is_list (view value.now) }
{
    as_array(value).is_some()
}

/// Whether it is this whole number.
pub fn is_number(value: &Value<'_>, number: u64) -> bool
    ensures { result ≡ is_number number (view value.now) }
{
    as_u64(value) == Some(number)
}

/// Whether it is a whole number of this range.
pub fn is_within(value: &Value<'_>, least: u64, most: u64) -> bool
    ensures { result ≡ is_within least most (view value.now) }
{
    match as_u64(value) {
        Some(number) => least <= number && number <= most,
        None => false,
    }
}

/// Whether a value is a whole number of at most that size.
fn is_bounded(value: &Value<'_>, most: u64) -> bool
    ensures { result ≡ is_bounded most (view value.now) }
{
    match as_u64(value) {
        Some(number) => number <= most,
        None => match as_i64(value) {
            Some(number) => number.unsigned_abs() <= most,
            None => false,
        },
    }
}

/// Whether a text is this one. Lengths are compared first, since most texts differ in theirs.
#[inline]
pub fn is_same(text: &str, other: &str) -> bool
    ensures { result ≡ bytes_eq text.now other.now }
{
    text.len() == other.len() && text == other
}

/// Whether it is this text.
pub fn is_text(value: &Value<'_>, text: &str) -> bool
    ensures { result ≡ is_text text.now (view value.now) }
{
    match as_str(value) {
        Some(found) => is_same(found, text),
        None => false,
    }
}

/// Whether it is one of these words.
pub fn is_one_of(value: &Value<'_>, words: &[&str]) -> bool
    ensures { result ≡ is_one_of (map (λ s. s.now) words.now) (view value.now) }
{
    match as_str(value) {
        Some(found) => is_among(found, words),
        None => false,
    }
}

fn is_among(text: &str, words: &[&str]) -> bool
    ensures { result ≡ list_any (bytes_eq text.now) (map (λ s. s.now) words.now) }
{
    is_any(text, words)
}

fn is_any(text: &str, words: &[&str]) -> bool
    ensures { result ≡ list_any (λ s. bytes_eq text.now s.now) words.now }
{
    words.iter().any(|word| is_same(text, *word))
}

// ---- what it has at a name

/// Whether a text is at the name.
pub fn must_be_text(value: &Value<'_>, name: &str) -> bool
    ensures { result ≡ must_have name.now is_string (view value.now) }
{
    match get(value, name) {
        Some(found) => is_string(found),
        None => false,
    }
}

/// Whether nothing is at the name, or a text.
pub fn may_be_text(value: &Value<'_>, name: &str) -> bool
    ensures { result ≡ may_have name.now is_string (view value.now) }
{
    match get(value, name) {
        Some(found) => is_string(found),
        None => true,
    }
}

/// Whether nothing is at the name, or a truth value.
pub fn may_be_truth(value: &Value<'_>, name: &str) -> bool
    ensures { result ≡ may_have name.now is_truth (view value.now) }
{
    match get(value, name) {
        Some(found) => is_truth(found),
        None => true,
    }
}

/// Whether nothing is at the name, or a list.
pub fn may_be_list(value: &Value<'_>, name: &str) -> bool
    ensures { result ≡ may_have name.now is_list (view value.now) }
{
    match get(value, name) {
        Some(found) => is_list(found),
        None => true,
    }
}

/// Whether one of these words is at the name.
pub fn must_be_one_of(value: &Value<'_>, name: &str, words: &[&str]) -> bool
    ensures { result ≡ must_have name.now (is_one_of (map (λ s. s.now) words.now)) (view value.now) }
{
    match get(value, name) {
        Some(found) => is_one_of(found, words),
        None => false,
    }
}

/// Whether nothing is at the name, or one of these words.
pub fn may_be_one_of(value: &Value<'_>, name: &str, words: &[&str]) -> bool
    ensures { result ≡ may_have name.now (is_one_of (map (λ s. s.now) words.now)) (view value.now) }
{
    match get(value, name) {
        Some(found) => is_one_of(found, words),
        None => true,
    }
}

/// Whether a whole number of this range is at the name.
pub fn must_be_within(value: &Value<'_>, name: &str, least: u64, most: u64) -> bool
    ensures { result ≡ must_have name.now (is_within least most) (view value.now) }
{
    match get(value, name) {
        Some(found) => is_within(found, least, most),
        None => false,
    }
}

/// Whether nothing is at the name, or a whole number of this range.
pub fn may_be_within(value: &Value<'_>, name: &str, least: u64, most: u64) -> bool
    ensures { result ≡ may_have name.now (is_within least most) (view value.now) }
{
    match get(value, name) {
        Some(found) => is_within(found, least, most),
        None => true,
    }
}

/// Whether nothing is at the name, or a whole number at most so far from 0.
pub fn may_be_bounded(value: &Value<'_>, name: &str, most: u64) -> bool
    ensures { result ≡ may_have name.now (is_bounded most) (view value.now) }
{
    match get(value, name) {
        Some(found) => is_bounded(found, most),
        None => true,
    }
}

/// Whether this whole number is at the name.
pub fn has_number(value: &Value<'_>, name: &str, number: u64) -> bool
    ensures { result ≡ must_have name.now (is_number number) (view value.now) }
{
    match get(value, name) {
        Some(found) => is_number(found, number),
        None => false,
    }
}

/// Whether this text is at the name.
pub fn has_text(value: &Value<'_>, name: &str, text: &str) -> bool
    ensures { result ≡ has_text name.now text.now (view value.now) }
{
    match get(value, name) {
        Some(found) => is_text(found, text),
        None => false,
    }
}

// ---- what it says

/// The text that it is, or the empty one.
pub fn text_of<'v>(value: &Value<'v>) -> &'v str
    ensures { result.now ≡ text_of (view value.now) }
{
    as_str(value).unwrap_or("")
}

/// The text at the name, or the empty one.
pub fn text_at<'v>(value: &Value<'v>, name: &str) -> &'v str
    ensures { result.now ≡ text_at name.now (view value.now) }
{
    word_at(value, name).unwrap_or("")
}

/// The text at the name, if there is one.
pub fn word_at<'v>(value: &Value<'v>, name: &str) -> Option<&'v str>
    ensures { option_copied result ≡ word_at name.now (view value.now) }
{
    as_str(get(value, name)?)
}

/// The whole number at the name.
pub fn number_at(value: &Value<'_>, name: &str) -> Option<u64>
    ensures { result ≡ number_at name.now (view value.now) }
{
    as_u64(get(value, name)?)
}

/// The truth value at the name.
pub fn truth_at(value: &Value<'_>, name: &str) -> Option<bool>
    ensures { result ≡ truth_at name.now (view value.now) }
{
    as_bool(get(value, name)?)
}

/// The list at the name, or the empty one.
pub fn list_in<'v, 't>(value: &'v Value<'t>, name: &str) -> &'v [Value<'t>]
    ensures { map view result.now ≡ list_in name.now (view value.now) }
{
    list_at(value, name)
}

fn list_at<'v, 't>(value: &'v Value<'t>, name: &str) -> &'v [Value<'t>]
    ensures { items_view result.now ≡ list_at name.now (view value.now) }
{
    array_at(value, name).unwrap_or_default()
}

fn array_at<'v, 't>(value: &'v Value<'t>, name: &str) -> Option<&'v [Value<'t>]>
    ensures { option_map (λ l. items_view l.now) result ≡ option_and_then as_array (get name.now (view value.now)) }
{
    as_array(get(value, name)?)
}

// ---- members

/// Whether this is an object that has no members but those of these names.
pub fn has_only(value: &Value<'_>, names: &[&str]) -> bool
    ensures { result ≡ has_only (map (λ s. s.now) names.now) (view value.now) }
{
    match as_object(value) {
        Some(members) => are_named(members, names),
        None => false,
    }
}

fn are_named(members: &[Member<'_>], names: &[&str]) -> bool
    ensures { result ≡ list_all (λ m. list_any (λ s. bytes_eq m.0.now s.now) names.now) members.now }
{
    members.iter().all(|member| is_any(member.0, names))
}
