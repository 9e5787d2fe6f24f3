//! The rules of a machine file, in the order in which a broken one is named.
pub(crate) mod answers;
pub(crate) mod form;
pub(crate) mod items;
pub(crate) mod limits;
pub(crate) mod operations;
pub(crate) mod pairs;

ghost use Rattle.std.specs.Prelude.{◌≡◌, ◌≤◌, None, length, nat_lt, option_map, codes, IfOk};
ghost use Rattle.borrowed_json.specs.View.{view};
ghost use Rattle.file_rules.specs.Whole.{broken_at, first_of};
ghost use Rattle.borrowed_json.specs.Look.{has_only};
ghost use Rattle.std.specs.Option.{option_or};
ghost use Rattle.file_rules.specs.Members.{file_members};
ghost use Rattle.file_rules.specs.Rules.{has_version};
ghost use Rattle.file_rules.specs.Limits.{too_much};
ghost use Rattle.file_rules.specs.Operations.{unformed_operation, sourceless_operation, deviceless_operation, whole_scripts};
ghost use Rattle.file_rules.specs.ValidFiles.{broken_form};
ghost use Rattle.file_rules.specs.Answering.{sourceless_report, thingless_answer};
ghost use Rattle.file_rules.specs.Places.{unless};
ghost use Rattle.file_rules.specs.Groups.{form_rules, form_rules_by, end_rules, thing_rules, operation_rules, reply_rules, last_rules};
ghost use Rattle.file_rules.specs.Kept.{head_rules};
ghost use Rattle.file_rules.specs.Knows.{Knows};
ghost use Rattle.file_rules.specs.Seen.{AreEnds, AreNumbersOf};
ghost use Rattle.file_rules.specs.Broken.{place_of, broken_view};

use crate::names::known::{Known, repeated, repeated_callback, repeated_source};
use crate::rules::answers::{AnswerTest, first_answer, repeated_answer};
use crate::rules::form::unformed_member;
use crate::rules::items::{
    is_second, misspelled_item, other_misspelled, other_unformed, unformed_item,
};
use crate::rules::limits::{MOST_STEPS, too_many, too_much};
use crate::rules::operations::{OperationTest, first_operation};
use crate::rules::pairs::{EndNumbers, LinkEnds, loose_link, repeated_link};
use crate::value::place::{Member, Place};
use borrowed_json::{Value, has_number, has_only};
use sleep_base::Mem;
use sleep_model::Script;
use std::alloc::Global;

// The members of a machine file.
const MEMBERS: [&str; 11] = [
    "version",
    "alarm_ms",
    "cpus",
    "auto_cycles",
    "devices",
    "links",
    "syscore",
    "notifiers",
    "sources",
    "actors",
    "answers",
];

/// A broken rule's number, and the first place that breaks it.
#[derive(Clone, Copy)]
pub struct Broken {
    pub rule: u8,
    pub place: Place,
}

/// The rule of that number, if a place breaks it.
pub(crate) fn breaks(rule: u8, place: Option<Place>) -> Option<Broken>
    ensures { option_map broken_view result ≡ option_map (broken_at rule) (place_of place) }
{
    match place {
        Some(place) => Some(Broken { rule, place }),
        None => None,
    }
}

fn top(tree: &Value<'_>) -> Option<Place>
    ensures { place_of result ≡ unless (has_only file_members (view tree.now)) (codes "top") }
{
    if has_only(tree, &MEMBERS) {
        None
    } else {
        Some(Place::Top)
    }
}

fn version(tree: &Value<'_>) -> Option<Place>
    ensures { place_of result ≡ unless (has_version (view tree.now)) (codes "version") }
{
    if has_number(tree, "version", 1) || has_number(tree, "version", 2) {
        None
    } else {
        Some(Place::Member(Member::Version))
    }
}

/// The first rule of form, of number and of names that is broken, by the first item that has not its form and
/// the first that is misspelled.
fn form_broken_by(
    tree: &Value<'_>,
    unformed: Option<Place>,
    misspelled: Option<Place>,
) -> Option<Broken>
    ensures { option_map broken_view result ≡ first_of (form_rules_by (λ _. place_of unformed) (λ _. place_of misspelled)) (view tree.now) }
{
    breaks(2, top(tree))
        .or(breaks(3, version(tree)))
        .or(breaks(4, unformed_member(tree)))
        .or(breaks(5, unformed))
        .or(breaks(6, too_many(tree)))
        .or(breaks(7, misspelled))
}

/// The first rule of form, of number and of names that is broken.
pub fn form_broken(tree: &Value<'_>) -> Option<Broken>
    ensures { option_map broken_view result ≡ first_of form_rules (view tree.now) }
{
    form_broken_by(tree, unformed_item(tree), misspelled_item(tree))
}

/// The first of them that is broken, but for links.
pub fn head_broken(tree: &Value<'_>) -> Option<Broken>
    ensures { option_map broken_view result ≡ first_of head_rules (view tree.now) }
{
    form_broken_by(tree, other_unformed(tree), other_misspelled(tree))
}

/// The first rule of the ends of links that is broken.
pub fn end_broken(
    alloc: Global,
    tree: &Value<'_>,
    ends: &[LinkEnds<'_>],
    places: &[EndNumbers],
) -> Result<Option<Broken>, Mem>
    requires ends { AreEnds ends.now (view tree.now) }
    requires placed { AreNumbersOf places.now (view tree.now) }
    ensures { IfOk result (λ b. option_map broken_view b ≡ first_of end_rules (view tree.now)) }
{
    let again = repeated_link(alloc, tree, ends)?;
    let end = breaks(10, loose_link(tree, places));
    Ok(end.or(breaks(11, again)))
}

/// The first broken rule of those by which things differ.
pub fn thing_broken(
    alloc: Global,
    tree: &Value<'_>,
    known: &Known<'_>,
) -> Result<Option<Broken>, Mem>
    requires { Knows known.now (view tree.now) }
    ensures { IfOk result (λ b. option_map broken_view b ≡ first_of thing_rules (view tree.now)) }
{
    let source = repeated_source(alloc, tree)?;
    let actor = repeated(alloc, tree, Member::Actors)?;
    let callback = breaks(13, repeated_callback(tree, known));
    Ok(callback.or(breaks(14, source)).or(breaks(15, actor)))
}

fn unformed_operation(tree: &Value<'_>, known: &Known<'_>) -> Option<Place>
    ensures { place_of result ≡ unformed_operation (view tree.now) }
{
    first_operation(OperationTest::Formed(is_second(tree)), known, tree)
}

fn sourceless_operation(tree: &Value<'_>, known: &Known<'_>) -> Option<Place>
    requires { Knows known.now (view tree.now) }
    ensures { place_of result ≡ sourceless_operation (view tree.now) }
{
    first_operation(OperationTest::Source, known, tree)
}

fn deviceless_operation(tree: &Value<'_>, known: &Known<'_>) -> Option<Place>
    requires { Knows known.now (view tree.now) }
    ensures { place_of result ≡ deviceless_operation (view tree.now) }
{
    first_operation(OperationTest::Device, known, tree)
}

fn sourceless_report(tree: &Value<'_>, known: &Known<'_>) -> Option<Place>
    requires { Knows known.now (view tree.now) }
    ensures { place_of result ≡ sourceless_report (view tree.now) }
{
    first_answer(AnswerTest::Sources, known, tree)
}

fn thingless_answer(tree: &Value<'_>, known: &Known<'_>) -> Option<Place>
    requires { Knows known.now (view tree.now) }
    ensures { place_of result ≡ thingless_answer (view tree.now) }
{
    first_answer(AnswerTest::Thing, known, tree)
}

fn sourceless(tree: &Value<'_>, known: &Known<'_>) -> Option<Place>
    requires { Knows known.now (view tree.now) }
    ensures { place_of result ≡ option_or (sourceless_operation (view tree.now)) (sourceless_report (view tree.now)) }
{
    match sourceless_operation(tree, known) {
        Some(place) => Some(place),
        None => sourceless_report(tree, known),
    }
}

/// The first rule of operations that is broken.
pub fn operation_broken(tree: &Value<'_>, known: &Known<'_>) -> Option<Broken>
    requires { Knows known.now (view tree.now) }
    ensures { option_map broken_view result ≡ first_of operation_rules (view tree.now) }
{
    let form = breaks(16, unformed_operation(tree, known));
    let maker = breaks(17, first_operation(OperationTest::Allowed, known, tree));
    let source = breaks(18, sourceless(tree, known));
    let device = breaks(19, deviceless_operation(tree, known));
    form.or(maker).or(source).or(device)
}

/// The first rule of the sources of reports, and of answers, that is broken.
pub fn reply_broken(tree: &Value<'_>, known: &Known<'_>) -> Option<Broken>
    requires { Knows known.now (view tree.now) }
    ensures { option_map broken_view result ≡ first_of reply_rules (view tree.now) }
{
    let source = breaks(18, sourceless_report(tree, known));
    let thing = breaks(20, thingless_answer(tree, known));
    let ret = breaks(21, first_answer(AnswerTest::Ret, known, tree));
    let reports = breaks(22, first_answer(AnswerTest::Reports, known, tree));
    source.or(thing).or(ret).or(reports)
}

/// Whether more marks are named than a machine makes steps.
fn names_many_marks(known: &Known<'_>) -> bool
    ensures { result ≡ nat_lt 200000 (length known.now.marks) }
{
    known.marks.keys().len() as u64 > MOST_STEPS
}

/// The place at which too much may happen in a file with these scripts. Each mark is named by a step, so there
/// are too many steps if there are too many marks.
fn too_much_with(tree: &Value<'_>, known: &Known<'_>, scripts: &[Script]) -> Option<Place>
    requires form { broken_form (view tree.now) ≡ None }
    requires operations { unformed_operation (view tree.now) ≡ None }
    requires knows { Knows known.now (view tree.now) }
    requires scripts { length known.now.marks ≤ 200000 → scripts.now ≡ whole_scripts (view tree.now) }
    ensures { place_of result ≡ too_much (view tree.now) }
{
    if names_many_marks(known) {
        Some(Place::Member(Member::Actors))
    } else {
        too_much(tree, scripts)
    }
}

/// The first rule of answers that come again, or of how much may happen, that is broken in a file with these
/// scripts.
pub fn last_broken(
    alloc: Global,
    tree: &Value<'_>,
    known: &Known<'_>,
    scripts: &[Script],
) -> Result<Option<Broken>, Mem>
    requires form { broken_form (view tree.now) ≡ None }
    requires operations { unformed_operation (view tree.now) ≡ None }
    requires knows { Knows known.now (view tree.now) }
    requires scripts { length known.now.marks ≤ 200000 → scripts.now ≡ whole_scripts (view tree.now) }
    ensures { IfOk result (λ b. option_map broken_view b ≡ first_of last_rules (view tree.now)) }
{
    let again = breaks(23, repeated_answer(alloc, tree)?);
    let much = breaks(24, too_much_with(tree, known, scripts));
    Ok(again.or(much))
}
