//! The answers of callbacks: what they are of, what they are, and what they report.

ghost use Rattle.std.specs.Prelude.{◌≡◌, ◌&&◌, [], not, map, position, codes, IfOk, if◌then◌else◌};
ghost use Rattle.std.specs.List.{list_all, list_any};
ghost use Rattle.borrowed_json.specs.View.{view};
ghost use Rattle.sleep_model.specs.Text.{down_word};
ghost use Rattle.borrowed_json.specs.Look.{is_number, is_text, may_have, list_in, word_at, is_one_of};
ghost use Rattle.file_rules.specs.Places.{first_not, first_not_after, first_item};
ghost use Rattle.file_rules.specs.Names.{is_among_names};
ghost use Rattle.file_rules.specs.Operations.{names_source};
ghost use Rattle.file_rules.specs.Answering.{platform_steps, common_errors, is_of_device, has_its_phase, is_of_prepare, is_ret_allowed, may_report, names_of_kind, names_thing, thingless_answer, forbidden_ret, forbidden_reports, sourceless_report, repeated_answer};
ghost use Rattle.file_rules.specs.Knows.{texts};
ghost use Rattle.file_rules.specs.Rules.{name_of as own_name};
ghost use Rattle.sleep_base.specs.Errno.{name_of};
ghost use Rattle.file_rules.specs.AnswerTests.{answer_test, is_valid_answer, kind_names};
ghost use Rattle.file_rules.specs.Seen.{answer_seen, answer_written, same_answer};
ghost use Rattle.file_rules.specs.Broken.{place_of};

use crate::names::devices::is_device;
use crate::names::known::{Known, contains, item};
use crate::names::ranks::first_repeated;
use crate::rules::operations::names_one_of;
use crate::value::place::{Member, Place, items};
use crate::value::words::{DEVICE, NOTIFIER, SYSCORE, step_named};
use borrowed_json::{Value, get, has_text, is_number, is_text, list_in, number_at, text_at};
use key_index::KeyIndex;
use sleep_base::{Errno, Mem};
use sleep_model::Phase;
use std::alloc::Global;

/// A test of an answer.
#[derive(Clone, Copy)]
pub(crate) enum AnswerTest {
    Thing,
    Ret,
    Reports,
    Sources,
}

pub fn is_of_device(answer: &Value<'_>) -> bool
    ensures { result ≡ is_of_device (view answer.now) }
{
    has_text(answer, "what", DEVICE)
}

fn has_its_phase(answer: &Value<'_>) -> bool
    ensures { result ≡ has_its_phase (view answer.now) }
{
    if is_of_device(answer) {
        get(answer, "phase").is_some()
    } else {
        get(answer, "phase").is_none()
    }
}

fn is_of_prepare(answer: &Value<'_>) -> bool
    ensures { result ≡ is_of_prepare (view answer.now) }
{
    is_of_device(answer) && has_text(answer, "phase", Phase::Prepare.name())
}

/// Whether a name is that of a step of the platform that answers.
#[tactic(auto, using(crate::proofs::Namings::some_step_text))]
fn is_step(name: &str) -> bool
    ensures { result ≡ is_among_names (map down_word platform_steps) name.now }
{
    step_named(name).is_some()
}

/// Whether the thing that an answer names is there.
fn is_there(answer: &Value<'_>, known: &Known<'_>) -> bool
    ensures { result ≡ is_among_names (kind_names known.now (view answer.now)) (own_name (view answer.now)) }
{
    let name = text_at(answer, "name");
    if is_of_device(answer) {
        return is_device(&known.devices, name);
    }
    if has_text(answer, "what", SYSCORE) {
        return contains(&known.syscore, name);
    }
    if has_text(answer, "what", NOTIFIER) {
        return contains(&known.notifiers, name);
    }
    is_step(name)
}

fn is_ret_allowed(answer: &Value<'_>, ret: &Value<'_>) -> bool
    ensures { result ≡ is_ret_allowed (view answer.now) (view ret.now) }
{
    is_number(ret, 0) || is_common_error(ret) || is_own_ret(answer, ret)
}

fn is_error(ret: &Value<'_>, error: Errno) -> bool
    ensures { result ≡ is_text (name_of error) (view ret.now) }
{
    is_text(ret, error.name())
}

/// Whether it is an error that everything may answer.
#[tactic(auto, using(crate::proofs::Namings::common_named))]
fn is_common_error(ret: &Value<'_>) -> bool
    ensures { result ≡ is_one_of common_errors (view ret.now) }
{
    is_error(ret, Errno::EIO)
        || is_error(ret, Errno::EBUSY)
        || is_error(ret, Errno::ENODEV)
        || is_error(ret, Errno::EINVAL)
}

/// 1 of a device's prepare, EAGAIN of all else.
fn is_own_ret(answer: &Value<'_>, ret: &Value<'_>) -> bool
    ensures { result ≡ (if is_of_prepare (view answer.now) then is_number 1 (view ret.now)
        else is_text (codes "EAGAIN") (view ret.now)) }
{
    if is_of_prepare(answer) {
        is_number(ret, 1)
    } else {
        is_error(ret, Errno::EAGAIN)
    }
}

fn may_have_ret(answer: &Value<'_>) -> bool
    ensures { result ≡ may_have (codes "ret") (is_ret_allowed (view answer.now)) (view answer.now) }
{
    match get(answer, "ret") {
        Some(ret) => is_ret_allowed(answer, ret),
        None => true,
    }
}

#[tactic(auto, using(crate::proofs::Looks::length_view))]
fn may_report(answer: &Value<'_>) -> bool
    ensures { result ≡ may_report (view answer.now) }
{
    list_in(answer, "reports").len() <= most_reports(answer)
}

fn most_reports(answer: &Value<'_>) -> usize
    ensures { result ≡ (if is_of_device (view answer.now) && not (is_of_prepare (view answer.now)) then 16 else 0) }
{
    if is_of_device(answer) && !is_of_prepare(answer) {
        16
    } else {
        0
    }
}

/// Whether each report's source is one of these.
fn has_sources(answer: &Value<'_>, known: &Known<'_>) -> bool
    ensures { result ≡ list_all (names_source (texts known.now.sources)) (list_in (codes "reports") (view answer.now)) }
{
    have_sources(list_in(answer, "reports"), known)
}

fn have_sources(reports: &[Value<'_>], known: &Known<'_>) -> bool
    ensures { result ≡ list_all (λ v. names_source (texts known.now.sources) (view v)) reports.now }
{
    reports
        .iter()
        .all(|report| names_one_of(report, "source", &known.sources))
}

/// Whether an answer passes a test.
fn passes(test: AnswerTest, known: &Known<'_>, answer: &Value<'_>) -> bool
    ensures { result ≡ answer_test test known.now (view answer.now) }
{
    match test {
        AnswerTest::Thing => is_there(answer, known) && has_its_phase(answer),
        AnswerTest::Ret => may_have_ret(answer),
        AnswerTest::Reports => may_report(answer),
        AnswerTest::Sources => has_sources(answer, known),
    }
}

/// Whether an answer keeps each rule on one answer.
pub fn is_valid_answer(answer: &Value<'_>, known: &Known<'_>) -> bool
    ensures { result ≡ is_valid_answer known.now (view answer.now) }
{
    passes(AnswerTest::Thing, known, answer)
        && passes(AnswerTest::Ret, known, answer)
        && passes(AnswerTest::Reports, known, answer)
        && passes(AnswerTest::Sources, known, answer)
}

fn first_not(test: AnswerTest, known: &Known<'_>, answers: &[Value<'_>]) -> Option<usize>
    ensures { result ≡ position (λ v. not (answer_test test known.now (view v))) answers.now }
{
    answers
        .iter()
        .position(|answer| !passes(test, known, answer))
}

fn first_failing(test: AnswerTest, known: &Known<'_>, tree: &Value<'_>) -> Option<usize>
    ensures { result ≡ first_not (answer_test test known.now) (list_in (codes "answers") (view tree.now)) }
{
    first_not(test, known, items(tree, Member::Answers))
}

/// The place of the first answer that does not pass.
pub(crate) fn first_answer(test: AnswerTest, known: &Known<'_>, tree: &Value<'_>) -> Option<Place>
    ensures { place_of result ≡ first_item (codes "answers") (answer_test test known.now) (view tree.now) }
{
    match first_failing(test, known, tree) {
        Some(number) => Some(Place::Item(Member::Answers, number)),
        None => None,
    }
}

/// What an answer is of, and for which attempt.
#[derive(Clone, Copy, PartialEq, Eq, Hash)]
pub(crate) struct Given<'v> {
    what: &'v str,
    name: &'v str,
    phase: &'v str,
    attempt: Option<u64>,
}

/// What of an answer has to differ.
fn given_of<'v>(answer: &Value<'v>) -> Given<'v>
    ensures { answer_seen result ≡ answer_written (view answer.now) }
{
    Given {
        what: text_at(answer, "what"),
        name: text_at(answer, "name"),
        phase: text_at(answer, "phase"),
        attempt: number_at(answer, "attempt"),
    }
}

fn all_given<'v>(alloc: Global, answers: &[Value<'v>]) -> Result<Vec<Given<'v>>, Mem>
    ensures { IfOk result (λ v. map answer_seen v.items ≡ map answer_written (map view answers.now)) }
{
    let mut all = Vec::with_capacity(alloc, answers.len())?;
    for answer in answers {
        all.push(given_of(answer))?;
    }
    Ok(all)
}

fn first_again(answers: &KeyIndex<Given>) -> Option<usize>
    ensures { result ≡ first_not_after (λ before a.
        not (list_any (λ b. same_answer (answer_seen a) (answer_seen b)) before)) [] 0 answers.now }
{
    first_repeated(answers)
}

/// The first answer that comes a second time.
pub(crate) fn repeated_answer(alloc: Global, tree: &Value<'_>) -> Result<Option<Place>, Mem>
    ensures { IfOk result (λ p. place_of p ≡ repeated_answer (view tree.now)) }
{
    let answers = all_given(alloc, items(tree, Member::Answers))?;
    let answers = KeyIndex::new(alloc, answers)?;
    let number = first_again(&answers);
    drop(answers);
    Ok(item(Member::Answers, number))
}
