//! The form of the file's members and of the items of its lists.

ghost use Rattle.std.specs.Prelude.{◌≡◌, codes, Option, nat_le, length, map, position, not};
ghost use Rattle.std.specs.List.{list_all};
ghost use Rattle.borrowed_json.specs.View.{view};
ghost use Rattle.borrowed_json.specs.Look.{may_have, must_have, list_in, has_only, is_string, is_one_of};
ghost use Rattle.file_rules.specs.Members.{link_members};
ghost use Rattle.file_rules.specs.Form.{kinds, phases, statuses, link_states, is_device_form, is_link_form, is_notifier_form, is_actor_form, is_ret_form, is_plain_report, is_event_report, is_report_form, are_reports, is_answer_form, unformed_member, unformed_item};
ghost use Rattle.file_rules.specs.Operations.{has_ends_named};
ghost use Rattle.file_rules.specs.Broken.{place_of};

use crate::value::place::{Member, Place};
use crate::value::words::{
    AWAKE, DEVICE, EVENT, NOTIFIER, PLATFORM, RELAX, SYSCORE, error_in, kind_in, phase_in,
};
use borrowed_json::{
    Value, as_array, get, has_only, has_text, is_number, is_string, list_in, may_be_bounded,
    may_be_list, may_be_one_of, may_be_text, may_be_truth, may_be_within, must_be_one_of,
    must_be_text,
};
use sleep_model::{link_word, runtime_word};

/// A day, in ms: the longest time.
pub const DAY: u64 = 86_400_000;

/// The words of a runtime status.
pub fn statuses() -> [&'static str; 2]
    ensures { map (λ s. s.now) result ≡ statuses }
{
    [runtime_word(false), runtime_word(true)]
}

/// The words of a link's state.
pub fn link_states() -> [&'static str; 2]
    ensures { map (λ s. s.now) result ≡ link_states }
{
    [link_word(true), link_word(false)]
}

/// The first member that has not its form.
pub(crate) fn unformed_member(tree: &Value<'_>) -> Option<Place>
    ensures { place_of result ≡ unformed_member (view tree.now) }
{
    if !may_be_within(tree, "alarm_ms", 1, DAY) {
        return Some(Place::Member(Member::AlarmMs));
    }
    if !may_be_within(tree, "cpus", 1, 64) {
        return Some(Place::Member(Member::Cpus));
    }
    if !may_be_within(tree, "auto_cycles", 1, 1000) {
        return Some(Place::Member(Member::AutoCycles));
    }
    if !may_be_list(tree, "devices") {
        return Some(Place::Member(Member::Devices));
    }
    if !may_be_list(tree, "links") {
        return Some(Place::Member(Member::Links));
    }
    if !may_be_list(tree, "syscore") {
        return Some(Place::Member(Member::Syscore));
    }
    if !may_be_list(tree, "notifiers") {
        return Some(Place::Member(Member::Notifiers));
    }
    if !may_be_list(tree, "sources") {
        return Some(Place::Member(Member::Sources));
    }
    if !may_be_list(tree, "actors") {
        return Some(Place::Member(Member::Actors));
    }
    if !may_be_list(tree, "answers") {
        return Some(Place::Member(Member::Answers));
    }
    None
}

/// Whether a value has the form of a device.
pub(crate) fn is_device_form(value: &Value<'_>) -> bool
    ensures { result ≡ is_device_form (view value.now) }
{
    has_only(value, &["name", "parent", "async", "wakeup", "runtime"])
        && must_be_text(value, "name")
        && may_be_text(value, "parent")
        && may_be_truth(value, "async")
        && may_be_truth(value, "wakeup")
        && may_be_one_of(value, "runtime", &statuses())
}

/// Whether a link has none but its members: with a state in a file of version 2.
pub fn has_link_members(value: &Value<'_>, second: bool) -> bool
    ensures { result ≡ has_only (link_members second) (view value.now) }
{
    if second {
        has_only(value, &["supplier", "consumer", "state"])
    } else {
        has_only(value, &["supplier", "consumer"])
    }
}

/// Whether both ends of a link are given.
pub(crate) fn has_ends(value: &Value<'_>) -> bool
    ensures { result ≡ has_ends_named (view value.now) }
{
    must_be_text(value, "supplier") && must_be_text(value, "consumer")
}

pub(crate) fn is_link_form(value: &Value<'_>, second: bool) -> bool
    ensures { result ≡ is_link_form second (view value.now) }
{
    has_link_members(value, second)
        && has_ends(value)
        && may_be_one_of(value, "state", &link_states())
}

pub(crate) fn is_notifier_form(value: &Value<'_>) -> bool
    ensures { result ≡ is_notifier_form (view value.now) }
{
    has_only(value, &["name", "priority"])
        && must_be_text(value, "name")
        && may_be_bounded(value, "priority", 1000)
}

/// Whether a kind of task is given.
#[tactic(auto, using(crate::proofs::Namings::some_kind))]
fn has_kind(value: &Value<'_>) -> bool
    ensures { result ≡ must_have (codes "kind") (is_one_of kinds) (view value.now) }
{
    match get(value, "kind") {
        Some(kind) => kind_in(kind).is_some(),
        None => false,
    }
}

pub(crate) fn is_actor_form(value: &Value<'_>) -> bool
    ensures { result ≡ is_actor_form (view value.now) }
{
    has_only(value, &["name", "kind", "repeat", "script"])
        && must_be_text(value, "name")
        && has_kind(value)
        && may_be_within(value, "repeat", 1, 1000)
        && may_be_list(value, "script")
}

#[tactic(auto, using(crate::proofs::Namings::some_error))]
fn is_ret_form(value: &Value<'_>) -> bool
    ensures { result ≡ is_ret_form (view value.now) }
{
    is_number(value, 0) || is_number(value, 1) || error_in(value).is_some()
}

fn is_plain_report(value: &Value<'_>) -> bool
    ensures { result ≡ is_plain_report (view value.now) }
{
    has_only(value, &["call", "source"]) && must_be_one_of(value, "call", &[AWAKE, RELAX])
}

fn is_event_report(value: &Value<'_>) -> bool
    ensures { result ≡ is_event_report (view value.now) }
{
    has_only(value, &["call", "source", "ms", "hard"])
        && has_text(value, "call", EVENT)
        && may_be_within(value, "ms", 0, DAY)
        && may_be_truth(value, "hard")
}

fn is_report_form(value: &Value<'_>) -> bool
    ensures { result ≡ is_report_form (view value.now) }
{
    must_be_text(value, "source") && (is_plain_report(value) || is_event_report(value))
}

#[tactic(auto, using(crate::proofs::Looks::list_all_items))]
fn are_reports(value: &Value<'_>) -> bool
    ensures { result ≡ are_reports (view value.now) }
{
    match as_array(value) {
        Some(list) => are_all_reports(list),
        None => false,
    }
}

fn are_all_reports(list: &[Value<'_>]) -> bool
    ensures { result ≡ list_all (λ v. is_report_form (view v)) list.now }
{
    list.iter().all(|value| is_report_form(value))
}

fn may_have_ret(value: &Value<'_>) -> bool
    ensures { result ≡ may_have (codes "ret") is_ret_form (view value.now) }
{
    match get(value, "ret") {
        Some(found) => is_ret_form(found),
        None => true,
    }
}

fn may_have_reports(value: &Value<'_>) -> bool
    ensures { result ≡ may_have (codes "reports") are_reports (view value.now) }
{
    match get(value, "reports") {
        Some(found) => are_reports(found),
        None => true,
    }
}

/// Whether no phase is given, or one in which devices answer.
#[tactic(auto, using(crate::proofs::Namings::some_phase))]
fn may_have_phase(value: &Value<'_>) -> bool
    ensures { result ≡ may_have (codes "phase") (is_one_of phases) (view value.now) }
{
    match get(value, "phase") {
        Some(phase) => phase_in(phase).is_some(),
        None => true,
    }
}

/// Whether a value has the form of an answer.
pub(crate) fn is_answer_form(value: &Value<'_>) -> bool
    ensures { result ≡ is_answer_form (view value.now) }
{
    has_only(
        value,
        &["what", "name", "phase", "attempt", "ret", "reports"],
    ) && must_be_one_of(value, "what", &[DEVICE, SYSCORE, NOTIFIER, PLATFORM])
        && must_be_text(value, "name")
        && may_have_phase(value)
        && may_be_within(value, "attempt", 1, 1000)
        && may_have_ret(value)
        && may_have_reports(value)
}
