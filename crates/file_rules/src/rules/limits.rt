//! How many things a file may have, and how much may happen.

ghost use Rattle.std.specs.Prelude.{◌≡◌, ◌+◌, ◌*◌, ◌||◌, length, min, map, codes, true, sum_by, unwrap_or, nat_le, if◌then◌else◌};
ghost use Rattle.std.specs.List.{list_any};
ghost use Rattle.borrowed_json.specs.View.{view};
ghost use Rattle.borrowed_json.specs.Look.{list_in, number_at, has_text};
ghost use Rattle.sleep_model.specs.Places.{is_state, is_autosleep, is_link_step};
ghost use Rattle.file_rules.specs.Limits.{too_many, too_much, has_autosleep, autosleep_attempts, most_attempts, are_links_few, are_steps_few, are_reports_few};
ghost use Rattle.file_rules.specs.Counted.{with_step, steps_once, repeated_steps, steps_of_script, joined_steps, steps_of_scripts, steps_of_actors};
ghost use Rattle.file_rules.specs.Operations.{whole_scripts};
ghost use Rattle.file_rules.specs.Broken.{member_name, place_of};

use crate::value::place::{Member, Place, items};
use borrowed_json::{Value, list_in, number_at};
use sleep_model::{Op, Script, Step};

/// How many steps there are, each number of at most the cap.
#[derive(Clone, Copy)]
pub(crate) struct Steps {
    all: u64,
    /// The writes to the state.
    state: u64,
    /// Those that add a link.
    link: u64,
    /// Whether there is a write to autosleep.
    autosleep: bool,
}

const NO_STEPS: Steps = Steps {
    all: 0,
    state: 0,
    link: 0,
    autosleep: false,
};

/// The most steps that all scripts make.
pub const MOST_STEPS: u64 = 200_000;

// The most turns of devices in all attempts.
const MOST_TURNS: u64 = 100_000;

// The most devices.
const MOST_DEVICES: u64 = 1000;

// The most links that are there or are added.
const MOST_LINKS: u64 = 4000;

// The most syscore callbacks.
const MOST_SYSCORE: u64 = 32;

// The most notifiers.
const MOST_NOTIFIERS: u64 = 32;

// The most sources, not counting that of autosleep.
const MOST_SOURCES: u64 = 255;

// The most actors.
const MOST_ACTORS: u64 = 256;

// The most answers.
const MOST_ANSWERS: u64 = 10_000;

// The most reports of all answers.
const MOST_REPORTS: u64 = 10_000;

// More than any limit: what is larger counts as this much.
const CAP: u64 = 1_000_000;

#[tactic(auto, using(crate::proofs::Looks::length_view))]
fn has_most(tree: &Value<'_>, list: Member, most: u64) -> bool
    ensures { result ≡ nat_le (length (list_in (member_name list) (view tree.now))) most }
{
    items(tree, list).len() as u64 <= most
}

/// The first list that is too long.
pub(crate) fn too_many(tree: &Value<'_>) -> Option<Place>
    ensures { place_of result ≡ too_many (view tree.now) }
{
    if !has_most(tree, Member::Devices, MOST_DEVICES) {
        return Some(Place::Member(Member::Devices));
    }
    if !has_most(tree, Member::Links, MOST_LINKS) {
        return Some(Place::Member(Member::Links));
    }
    if !has_most(tree, Member::Syscore, MOST_SYSCORE) {
        return Some(Place::Member(Member::Syscore));
    }
    if !has_most(tree, Member::Notifiers, MOST_NOTIFIERS) {
        return Some(Place::Member(Member::Notifiers));
    }
    if !has_most(tree, Member::Sources, MOST_SOURCES) {
        return Some(Place::Member(Member::Sources));
    }
    if !has_most(tree, Member::Actors, MOST_ACTORS) {
        return Some(Place::Member(Member::Actors));
    }
    if !has_most(tree, Member::Answers, MOST_ANSWERS) {
        return Some(Place::Member(Member::Answers));
    }
    None
}

/// A sum, of at most the cap.
fn capped_sum(one: u64, other: u64) -> u64
    ensures { result ≡ min (one + other) 1000000 }
{
    one.saturating_add(other).min(CAP)
}

/// A product, of at most the cap.
fn capped_product(one: u64, other: u64) -> u64
    ensures { result ≡ min (one * other) 1000000 }
{
    one.saturating_mul(other).min(CAP)
}

/// What counts if it is asked for, and 0 else.
fn times_if(counted: bool, times: u64) -> u64
    ensures { result ≡ (if counted then times else 0) }
{
    if counted { times } else { 0 }
}

fn is_state(op: &Op) -> bool
    ensures { result ≡ is_state op.now }
{
    matches!(op, Op::State { .. })
}

fn is_autosleep(op: &Op) -> bool
    ensures { result ≡ is_autosleep op.now }
{
    matches!(op, Op::Autosleep { .. })
}

fn is_link_step(op: &Op) -> bool
    ensures { result ≡ is_link_step op.now }
{
    matches!(op, Op::Link { .. })
}

/// The steps and a step more.
fn with_step(steps: Steps, step: &Step) -> Steps
    ensures { result ≡ with_step steps step.now }
{
    let times = u64::from(step.times);
    let state = times_if(is_state(&step.op), times);
    let link = times_if(is_link_step(&step.op), times);
    Steps {
        all: capped_sum(steps.all, times),
        state: capped_sum(steps.state, state),
        link: capped_sum(steps.link, link),
        autosleep: steps.autosleep || is_autosleep(&step.op),
    }
}

/// The steps of a script that is made once.
fn steps_once(script: &[Step]) -> Steps
    ensures { result ≡ steps_once script.now }
{
    let mut steps = NO_STEPS;
    for step in script {
        steps = with_step(steps, step);
    }
    steps
}

/// The steps that are made so often.
fn repeated(repeat: u64, steps: Steps) -> Steps
    ensures { result ≡ repeated_steps repeat steps }
{
    Steps {
        all: capped_product(repeat, steps.all),
        state: capped_product(repeat, steps.state),
        link: capped_product(repeat, steps.link),
        autosleep: steps.autosleep,
    }
}

fn script_steps(script: &Script) -> Steps
    ensures { result ≡ steps_of_script script.now }
{
    repeated(
        u64::from(script.repeat),
        steps_once(script.steps.as_slice()),
    )
}

/// The steps of both.
fn joined(one: Steps, other: Steps) -> Steps
    ensures { result ≡ joined_steps one other }
{
    Steps {
        all: capped_sum(one.all, other.all),
        state: capped_sum(one.state, other.state),
        link: capped_sum(one.link, other.link),
        autosleep: one.autosleep || other.autosleep,
    }
}

/// The steps of all scripts.
fn all_steps(scripts: &[Script]) -> Steps
    ensures { result ≡ steps_of_scripts scripts.now }
{
    let mut sum = NO_STEPS;
    for script in scripts {
        sum = joined(sum, script_steps(script));
    }
    sum
}

/// The steps of a file, by the scripts that were read of it.
fn steps_of_file(_tree: &Value<'_>, scripts: &[Script]) -> Steps
    requires { scripts.now ≡ whole_scripts (view _tree.now) }
    ensures { result ≡ steps_of_actors (list_in (codes "actors") (view _tree.now)) }
{
    all_steps(scripts)
}

fn autosleep_attempts(tree: &Value<'_>, automatic: bool) -> u64
    requires { automatic ≡ list_any has_autosleep (list_in (codes "actors") (view tree.now)) }
    ensures { result ≡ autosleep_attempts (view tree.now) }
{
    if automatic {
        number_at(tree, "auto_cycles").unwrap_or(16)
    } else {
        0
    }
}

/// How many attempts may be begun, of at most the cap.
fn most_attempts(tree: &Value<'_>, steps: Steps) -> u64
    requires { steps ≡ steps_of_actors (list_in (codes "actors") (view tree.now)) }
    ensures { result ≡ min (most_attempts (view tree.now)) 1000000 }
{
    capped_sum(steps.state, autosleep_attempts(tree, steps.autosleep))
}

fn are_links_few(tree: &Value<'_>, steps: Steps) -> bool
    requires { steps ≡ steps_of_actors (list_in (codes "actors") (view tree.now)) }
    ensures { result ≡ are_links_few (view tree.now) }
{
    let written = items(tree, Member::Links).len() as u64;
    capped_sum(written, steps.link) <= MOST_LINKS
}

fn are_steps_few(tree: &Value<'_>, scripts: &[Script]) -> bool
    requires { scripts.now ≡ whole_scripts (view tree.now) }
    ensures { result ≡ are_steps_few (view tree.now) }
{
    let steps = steps_of_file(tree, scripts);
    let devices = items(tree, Member::Devices).len() as u64;
    let turns = capped_product(most_attempts(tree, steps), devices.saturating_add(50));
    steps.all <= MOST_STEPS && turns <= MOST_TURNS && are_links_few(tree, steps)
}

fn reports_of(answers: &[Value<'_>]) -> u64
    ensures { result ≡ min (sum_by (λ a. length (list_in (codes "reports") a)) (map view answers.now)) 1000000 }
{
    let mut sum = 0;
    for answer in answers {
        sum = capped_sum(sum, list_in(answer, "reports").len() as u64);
    }
    sum
}

fn are_reports_few(tree: &Value<'_>) -> bool
    ensures { result ≡ are_reports_few (view tree.now) }
{
    reports_of(items(tree, Member::Answers)) <= MOST_REPORTS
}

/// The place at which too much may happen in a file with these scripts.
pub(crate) fn too_much(tree: &Value<'_>, scripts: &[Script]) -> Option<Place>
    requires { scripts.now ≡ whole_scripts (view tree.now) }
    ensures { place_of result ≡ too_much (view tree.now) }
{
    if !are_steps_few(tree, scripts) {
        return Some(Place::Member(Member::Actors));
    }
    if !are_reports_few(tree) {
        return Some(Place::Member(Member::Answers));
    }
    None
}
