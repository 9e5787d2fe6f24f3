//! The answers that a file spells: each is tested and read at once.

ghost use Rattle.std.specs.Prelude.{◌≡◌, ◌≤◌, All, map, length, codes, true, unwrap_or, find, pos, neg_ℤ, IfErr, IfOk};
ghost use Rattle.std.specs.List.{list_all};
ghost use Rattle.borrowed_json.specs.View.{view};
ghost use Rattle.borrowed_json.specs.Look.{has_text, number_at};
ghost use Rattle.file_rules.specs.Answering.{answering_phases, platform_steps, phase_of, step_of, ret_of, call_of, whole_report};
ghost use Rattle.file_rules.specs.AnswerTests.{thing_seen, answer_made, is_valid_answer};
ghost use Rattle.phase_table.specs.Phases.{phase_name};
ghost use Rattle.sleep_model.specs.Text.{down_word};
ghost use Rattle.sleep_base.specs.Errno.{name_of, number_of};
ghost use Rattle.sleep_model.specs.Answers.{errors};
ghost use Rattle.file_rules.specs.Fitting.{FitsAt, HasPlainRet, FitsAnswer};
ghost use Rattle.file_rules.specs.Knows.{texts, AreFew};
ghost use Rattle.machine_file.specs.Stopping.{StopsUnless};

use crate::fault::Stop;
use crate::reading::scripts::{ms_of, says, small_at, thing_at};
use borrowed_json::{Value, get, has_text, list_in, number_at};
use file_rules::{
    AWAKE, Known, NOTIFIER, RELAX, SYSCORE, device_named, error_in, is_of_device, is_valid_answer,
    phase_in, step_in,
};
use key_index::KeyIndex;
use sleep_base::{Errno, Mem};
use sleep_model::{Answer, ListOf, Phase, PlatDo, Report, SourceCall, What};
use std::alloc::Global;

fn phase_at(answer: &Value<'_>) -> Option<Phase>
    ensures { result ≡ find (λ p. has_text (codes "phase") (phase_name p) (view answer.now)) answering_phases }
{
    match get(answer, "phase") {
        Some(phase) => phase_in(phase),
        None => None,
    }
}

fn phase_of(answer: &Value<'_>) -> Phase
    ensures { result ≡ phase_of (view answer.now) }
{
    phase_at(answer).unwrap_or(Phase::Prepare)
}

fn step_at(answer: &Value<'_>) -> Option<PlatDo>
    ensures { result ≡ find (λ s. has_text (codes "name") (down_word s) (view answer.now)) platform_steps }
{
    match get(answer, "name") {
        Some(step) => step_in(step),
        None => None,
    }
}

fn step_of(answer: &Value<'_>) -> PlatDo
    ensures { result ≡ step_of (view answer.now) }
{
    step_at(answer).unwrap_or(PlatDo::Begin)
}

/// The thing that an answer is of.
fn thing_of(answer: &Value<'_>, known: &Known<'_>) -> What
    requires { AreFew known.now }
    ensures { result ≡ thing_seen known.now (view answer.now) }
{
    if is_of_device(answer) {
        return What::Device(
            device_named(answer, "name", &known.devices),
            phase_of(answer),
        );
    }
    if has_text(answer, "what", SYSCORE) {
        return What::Syscore(thing_at(answer, "name", &known.syscore));
    }
    if has_text(answer, "what", NOTIFIER) {
        return What::Notifier(thing_at(answer, "name", &known.notifiers));
    }
    What::Platform(step_of(answer))
}

fn error_of(answer: &Value<'_>) -> Option<Errno>
    ensures { result ≡ find (λ e. has_text (codes "ret") (name_of e) (view answer.now)) errors }
{
    match get(answer, "ret") {
        Some(ret) => error_in(ret),
        None => None,
    }
}

fn below_zero(error: Errno) -> i32
    ensures { result ≡ neg_ℤ (pos (number_of error)) }
{
    -i32::from(error.number())
}

fn plain_ret(answer: &Value<'_>) -> i32
    requires { HasPlainRet (view answer.now) }
    ensures { result ≡ pos (unwrap_or (number_at (codes "ret") (view answer.now)) 0) }
{
    match number_at(answer, "ret") {
        Some(number) => number as i32,
        None => 0,
    }
}

fn ret_of(answer: &Value<'_>) -> i32
    requires { HasPlainRet (view answer.now) }
    ensures { result ≡ ret_of (view answer.now) }
{
    match error_of(answer) {
        Some(error) => below_zero(error),
        None => plain_ret(answer),
    }
}

/// The call that a report makes.
fn call_of(report: &Value<'_>) -> SourceCall
    requires { FitsAt (codes "ms") (view report.now) }
    ensures { result ≡ call_of (view report.now) }
{
    if has_text(report, "call", AWAKE) {
        return SourceCall::Awake;
    }
    if has_text(report, "call", RELAX) {
        return SourceCall::Relax;
    }
    SourceCall::Event {
        ms: ms_of(report),
        hard: says(report, "hard"),
    }
}

fn report_of(report: &Value<'_>, sources: &KeyIndex<&str>) -> Report
    requires few { length sources.now ≤ 1000 }
    requires fits { FitsAt (codes "ms") (view report.now) }
    ensures { result ≡ whole_report (texts sources.now) (view report.now) }
{
    Report {
        source: thing_at(report, "source", sources),
        call: call_of(report),
    }
}

fn reports_of(
    alloc: Global,
    reports: &[Value<'_>],
    sources: &KeyIndex<&str>,
) -> Result<Vec<Report>, Mem>
    requires few { length sources.now ≤ 1000 }
    requires fit { All (FitsAt (codes "ms")) (map view reports.now) }
    ensures { IfOk result (λ v. v.items ≡ map (whole_report (texts sources.now)) (map view reports.now)) }
{
    let mut all = Vec::with_capacity(alloc, reports.len())?;
    for report in reports {
        all.push(report_of(report, sources))?;
    }
    Ok(all)
}

/// The answer that a value spells.
fn answer_in(alloc: Global, answer: &Value<'_>, known: &Known<'_>) -> Result<Answer, Stop>
    requires few { AreFew known.now }
    requires fits { FitsAnswer (view answer.now) }
    ensures valid { IfOk result (λ _. is_valid_answer known.now (view answer.now) ≡ true) }
    ensures spells { IfOk result (λ a. a ≡ answer_made known.now (view answer.now)) }
    ensures err { IfErr result (StopsUnless (is_valid_answer known.now (view answer.now))) }
{
    if !is_valid_answer(answer, known) {
        return Err(Stop::Broken);
    }
    let reports = reports_of(alloc, list_in(answer, "reports"), &known.sources)?;
    Ok(Answer {
        what: thing_of(answer, known),
        attempt: small_at(answer, "attempt"),
        ret: ret_of(answer),
        reports: ListOf::of_vec(reports),
    })
}

/// The answers that these values spell.
pub(crate) fn answers_in(
    alloc: Global,
    answers: &[Value<'_>],
    known: &Known<'_>,
) -> Result<Vec<Answer>, Stop>
    requires few { AreFew known.now }
    requires fit { All FitsAnswer (map view answers.now) }
    ensures valid { IfOk result (λ _. list_all (is_valid_answer known.now) (map view answers.now) ≡ true) }
    ensures spells { IfOk result (λ v. v.items ≡ map (answer_made known.now) (map view answers.now)) }
    ensures err { IfErr result (StopsUnless (list_all (is_valid_answer known.now) (map view answers.now))) }
{
    let mut all = Vec::with_capacity(alloc, answers.len())?;
    for answer in answers {
        all.push(answer_in(alloc, answer, known)?)?;
    }
    Ok(all)
}
