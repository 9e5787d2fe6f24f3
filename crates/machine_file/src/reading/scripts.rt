//! The scripts that a file spells: each operation is tested and read at once.

ghost use Rattle.std.specs.Prelude.{◌≡◌, ◌<◌, ◌≤◌, All, None, Some, true, map, length, codes, find, option_and_then, unwrap_or, IfErr, IfOk};
ghost use Rattle.std.specs.List.{list_all};
ghost use Rattle.serde_json.specs.Find.{as_number, as_u64, get};
ghost use Rattle.borrowed_json.specs.View.{view};
ghost use Rattle.sleep_model.specs.Text.{kind_word};
ghost use Rattle.sleep_model.specs.declared.machine.Op.TheVariants as op;
ghost use Rattle.borrowed_json.specs.Look.{has_text, may_have, must_have, number_at, word_at, text_at, is_string, is_truth, is_within};
ghost use Rattle.file_rules.specs.WordLists.{task_kinds};
ghost use Rattle.file_rules.specs.Operations.{has_length, has_mark, has_short_text, is_state_form, kind_of, ms_of, row_of, says, thing_at, whole_script, whole_step};
ghost use Rattle.machine_file.specs.declared.fault.Stop.TheVariants as stop;
ghost use Rattle.file_rules.specs.declared.rules.operations.Word.TheVariants as word;
ghost use Rattle.file_rules.specs.OperationRows.{is_valid_for, is_valid_script, names_ends, must_name, op_spelled, operation_of_word, row_test, word_test};
ghost use Rattle.file_rules.specs.Fitting.{FitsAt, FitsScript};
ghost use Rattle.file_rules.specs.Spelled.{index_among};
ghost use Rattle.machine_file.specs.Stopping.{StopsUnless};
ghost use Rattle.file_rules.specs.Knows.{texts, names, AreFew, known_seen};

use crate::fault::Stop;
use crate::reading::texts::text_from;
use crate::rules::cycles::index_among;
use borrowed_json::{
    Value, as_bool, as_str, as_u64, get, has_text, list_in, must_be_one_of, number_at, text_at,
    text_of, truth_at,
};
use file_rules::{
    DAY, Known, MOST_STEPS, MOST_TIMES, NamedDevices, Word, by_operation, has_members,
    has_short_text, index_of_name, is_allowed, is_of_version, kind_in, link_states, name_of_text,
    spells_name, statuses, word_of,
};
use key_index::KeyIndex;
use sleep_model::{ListOf, Op, Script, Step, TaskKind, Text, link_word, runtime_word};
use std::alloc::Global;

/// The number at a member, if there is one.
pub(crate) fn small_at(value: &Value<'_>, name: &str) -> Option<u32>
    requires { FitsAt name.now (view value.now) }
    ensures { result ≡ number_at name.now (view value.now) }
{
    match number_at(value, name) {
        Some(number) => Some(number as u32),
        None => None,
    }
}

/// The number at a member, and this one if there is none.
pub(crate) fn small_or(value: &Value<'_>, name: &str, default: u32) -> u32
    requires { FitsAt name.now (view value.now) }
    ensures { result ≡ unwrap_or (number_at name.now (view value.now)) default }
{
    small_at(value, name).unwrap_or(default)
}

/// The length that is given, in ms; without one, 0.
pub(crate) fn ms_of(value: &Value<'_>) -> u32
    requires { FitsAt (codes "ms") (view value.now) }
    ensures { result ≡ ms_of (view value.now) }
{
    small_or(value, "ms", 0)
}

/// Whether the member says so; without a word, it does not.
pub(crate) fn says(value: &Value<'_>, name: &str) -> bool
    ensures { result ≡ says name.now (view value.now) }
{
    truth_at(value, name).unwrap_or(false)
}

/// The number of the thing that is named there.
pub(crate) fn thing_at(value: &Value<'_>, name: &str, names: &KeyIndex<&str>) -> u32
    requires { length names.now ≤ 200000 }
    ensures { result ≡ index_among (texts names.now) (text_at name.now (view value.now)) }
{
    index_among(names, text_at(value, name)) as u32
}

/// What stands at a member, which has to be given.
pub(crate) fn member_of<'v, 'a>(value: &'v Value<'a>, name: &str) -> Result<&'v Value<'a>, Stop>
    ensures ok { IfOk result (λ v. get name.now (view value.now) ≡ Some (view v.now)) }
    ensures err { IfErr result (λ e. (get name.now (view value.now) ≡ None) × (e ≡ stop.Broken)) }
{
    match get(value, name) {
        Some(found) => Ok(found),
        None => Err(Stop::Broken),
    }
}

/// The whole number of this range that a value is.
fn number_within(value: &Value<'_>, least: u64, most: u64) -> Result<u32, Stop>
    requires { most < 4294967296 }
    ensures ok { IfOk result (λ n. (is_within least most (view value.now) ≡ true) × (option_and_then as_u64 (as_number (view value.now)) ≡ Some n)) }
    ensures err { IfErr result (StopsUnless (is_within least most (view value.now))) }
{
    match as_u64(value) {
        Some(number) if least <= number && number <= most => Ok(number as u32),
        _ => Err(Stop::Broken),
    }
}

/// The whole number of this range at a member, where one is given.
fn optional_within(
    value: &Value<'_>,
    name: &str,
    least: u64,
    most: u64,
) -> Result<Option<u32>, Stop>
    requires { most < 4294967296 }
    ensures ok { IfOk result (λ n. (may_have name.now (is_within least most) (view value.now) ≡ true) × (n ≡ number_at name.now (view value.now))) }
    ensures err { IfErr result (StopsUnless (may_have name.now (is_within least most) (view value.now))) }
{
    match get(value, name) {
        Some(found) => Ok(Some(number_within(found, least, most)?)),
        None => Ok(None),
    }
}

/// The length that has to be given, in ms.
fn length_in(operation: &Value<'_>) -> Result<u32, Stop>
    ensures ok { IfOk result (λ n. (has_length (view operation.now) ≡ true) × (n ≡ ms_of (view operation.now))) }
    ensures err { IfErr result (StopsUnless (has_length (view operation.now))) }
{
    let ms = member_of(operation, "ms")?;
    number_within(ms, 1, DAY)
}

/// Whether a member says so, where it is given.
fn optional_truth(value: &Value<'_>, name: &str) -> Result<bool, Stop>
    ensures ok { IfOk result (λ b. (may_have name.now is_truth (view value.now) ≡ true) × (b ≡ says name.now (view value.now))) }
    ensures err { IfErr result (StopsUnless (may_have name.now is_truth (view value.now))) }
{
    match get(value, name) {
        Some(found) => as_bool(found).ok_or(Stop::Broken),
        None => Ok(false),
    }
}

/// The text that is written, of at most 32 bytes.
fn text_in(alloc: Global, operation: &Value<'_>) -> Result<Text, Stop>
    ensures ok { IfOk result (λ t. (has_short_text (view operation.now) ≡ true) × (t ≡ text_at (codes "text") (view operation.now))) }
    ensures err { IfErr result (StopsUnless (has_short_text (view operation.now))) }
{
    if !has_short_text(operation) {
        return Err(Stop::Broken);
    }
    let text = text_from(alloc, text_at(operation, "text"))?;
    Ok(text)
}

/// The text at a member, which has to be given.
fn named_in<'v>(value: &Value<'v>, name: &str) -> Result<&'v str, Stop>
    ensures ok { IfOk result (λ s. word_at name.now (view value.now) ≡ Some s.now) }
    ensures given { IfOk result (λ _. must_have name.now is_string (view value.now) ≡ true) }
    ensures err { IfErr result (StopsUnless (must_have name.now is_string (view value.now))) }
{
    let found = member_of(value, name)?;
    as_str(found).ok_or(Stop::Broken)
}

/// The number of the thing that has to be named at a member.
fn thing_in(value: &Value<'_>, member: &str, names: &KeyIndex<&str>) -> Result<u32, Stop>
    requires { length names.now ≤ 200000 }
    ensures ok { IfOk result (λ n. (must_name member.now (texts names.now) (view value.now) ≡ true) × (n ≡ thing_at member.now (texts names.now) (view value.now))) }
    ensures err { IfErr result (StopsUnless (must_name member.now (texts names.now) (view value.now))) }
{
    let name = named_in(value, member)?;
    match index_of_name(names, name) {
        Some(number) => Ok(number as u32),
        None => Err(Stop::Broken),
    }
}

/// The number of the device that has to be named at a member.
fn device_in(value: &Value<'_>, member: &str, devices: &NamedDevices) -> Result<u32, Stop>
    ensures ok { IfOk result (λ n. (must_name member.now (names devices.now) (view value.now) ≡ true) × (n ≡ thing_at member.now (names devices.now) (view value.now))) }
    ensures err { IfErr result (StopsUnless (must_name member.now (names devices.now) (view value.now))) }
{
    let name = named_in(value, member)?;
    match devices.find(name) {
        Some(number) => Ok(number),
        None => Err(Stop::Broken),
    }
}

/// The number of the mark that has to be named. A file of more marks than a machine makes steps breaks the
/// rule on how much may happen.
fn mark_in(operation: &Value<'_>, marks: &KeyIndex<&str>) -> Result<u32, Stop>
    ensures valid { IfOk result (λ _. has_mark (view operation.now) ≡ true) }
    ensures spells { length marks.now ≤ 200000 → IfOk result (λ n. n ≡ thing_at (codes "mark") (texts marks.now) (view operation.now)) }
    ensures err { IfErr result (StopsUnless (has_mark (view operation.now))) }
{
    let mark = member_of(operation, "mark")?;
    if !spells_name(mark) {
        return Err(Stop::Broken);
    }
    let number = index_among(marks, text_of(mark)) as u64;
    Ok(number.min(MOST_STEPS) as u32)
}

/// A write to the state.
fn state_in(alloc: Global, operation: &Value<'_>) -> Result<Op, Stop>
    ensures valid { IfOk result (λ _. is_state_form (view operation.now) ≡ true) }
    ensures spells { IfOk result (λ o. o ≡ op.State (text_at (codes "text") (view operation.now)) (says (codes "if_saved") (view operation.now))) }
    ensures err { IfErr result (StopsUnless (is_state_form (view operation.now))) }
{
    let if_saved = optional_truth(operation, "if_saved")?;
    let text = text_in(alloc, operation)?;
    Ok(Op::State { text, if_saved })
}

/// A change of a runtime status.
fn runtime_in(operation: &Value<'_>, known: &Known<'_>) -> Result<Op, Stop>
    ensures ok { IfOk result (λ op. (row_test word.Runtime (known_seen known.now) (view operation.now) ≡ true) × (op ≡ op_spelled word.Runtime (known_seen known.now) (view operation.now))) }
    ensures err { IfErr result (StopsUnless (row_test word.Runtime (known_seen known.now) (view operation.now))) }
{
    let device = device_in(operation, "device", &known.devices)?;
    if !must_be_one_of(operation, "to", &statuses()) {
        return Err(Stop::Broken);
    }
    Ok(Op::Runtime {
        device,
        to_suspended: has_text(operation, "to", runtime_word(true)),
    })
}

/// The numbers of the supplier and the consumer that have to be named.
fn ends_in(operation: &Value<'_>, devices: &NamedDevices) -> Result<(u32, u32), Stop>
    ensures valid { IfOk result (λ _. names_ends (names devices.now) (view operation.now) ≡ true) }
    ensures supplier { IfOk result (λ t. t.0 ≡ thing_at (codes "supplier") (names devices.now) (view operation.now)) }
    ensures consumer { IfOk result (λ t. t.1 ≡ thing_at (codes "consumer") (names devices.now) (view operation.now)) }
    ensures err { IfErr result (StopsUnless (names_ends (names devices.now) (view operation.now))) }
{
    let supplier = device_in(operation, "supplier", devices)?;
    let consumer = device_in(operation, "consumer", devices)?;
    Ok((supplier, consumer))
}

/// A change of a link's state.
fn link_state_in(operation: &Value<'_>, known: &Known<'_>) -> Result<Op, Stop>
    ensures ok { IfOk result (λ op. (row_test word.LinkState (known_seen known.now) (view operation.now) ≡ true) × (op ≡ op_spelled word.LinkState (known_seen known.now) (view operation.now))) }
    ensures err { IfErr result (StopsUnless (row_test word.LinkState (known_seen known.now) (view operation.now))) }
{
    let (supplier, consumer) = ends_in(operation, &known.devices)?;
    if !must_be_one_of(operation, "to", &link_states()) {
        return Err(Stop::Broken);
    }
    Ok(Op::LinkState {
        supplier,
        consumer,
        active: !has_text(operation, "to", link_word(false)),
    })
}

/// An event of a source.
fn event_in(operation: &Value<'_>, known: &Known<'_>) -> Result<Op, Stop>
    requires { AreFew known.now }
    ensures ok { IfOk result (λ op. (row_test word.Event (known_seen known.now) (view operation.now) ≡ true) × (op ≡ op_spelled word.Event (known_seen known.now) (view operation.now))) }
    ensures err { IfErr result (StopsUnless (row_test word.Event (known_seen known.now) (view operation.now))) }
{
    let source = thing_in(operation, "source", &known.sources)?;
    let ms = optional_within(operation, "ms", 0, DAY)?.unwrap_or(0);
    let hard = optional_truth(operation, "hard")?;
    Ok(Op::Event { source, ms, hard })
}

/// The operation of that word, by its row of the table.
fn op_in(alloc: Global, word: Word, operation: &Value<'_>, known: &Known<'_>) -> Result<Op, Stop>
    requires few { AreFew known.now }
    ensures valid { IfOk result (λ _. row_test word (known_seen known.now) (view operation.now) ≡ true) }
    ensures spells { length known.now.marks ≤ 200000 → IfOk result (λ op. op ≡ op_spelled word (known_seen known.now) (view operation.now)) }
    ensures err { IfErr result (StopsUnless (row_test word (known_seen known.now) (view operation.now))) }
{
    by_operation!(read of word, alloc, operation, known)
}

/// An operation of that word, which an actor of that kind makes, in a file of version 2 or of version 1.
fn step_of_word(
    alloc: Global,
    second: bool,
    kind: &str,
    word: Word,
    operation: &Value<'_>,
    known: &Known<'_>,
) -> Result<Step, Stop>
    requires few { AreFew known.now }
    requires word { Some (operation_of_word word) ≡ row_of (view operation.now) }
    ensures valid { IfOk result (λ _. word_test second kind.now word (known_seen known.now) (view operation.now) ≡ true) }
    ensures spells { length known.now.marks ≤ 200000 → IfOk result (λ s. s ≡ whole_step (known_seen known.now) (view operation.now)) }
    ensures err { IfErr result (StopsUnless (word_test second kind.now word (known_seen known.now) (view operation.now))) }
{
    if !is_of_version(second, word) {
        return Err(Stop::Broken);
    }
    if !is_allowed(kind, word) {
        return Err(Stop::Broken);
    }
    if !has_members(operation, word) {
        return Err(Stop::Broken);
    }
    let times = optional_within(operation, "times", 1, MOST_TIMES)?;
    let op = op_in(alloc, word, operation, known)?;
    Ok(Step {
        op,
        times: times.unwrap_or(1),
    })
}

/// An operation that an actor of that kind makes, in a file of version 2 or of version 1.
fn step_in(
    alloc: Global,
    second: bool,
    kind: &str,
    operation: &Value<'_>,
    known: &Known<'_>,
) -> Result<Step, Stop>
    requires few { AreFew known.now }
    ensures valid { IfOk result (λ _. is_valid_for second kind.now (known_seen known.now) (view operation.now) ≡ true) }
    ensures spells { length known.now.marks ≤ 200000 → IfOk result (λ s. s ≡ whole_step (known_seen known.now) (view operation.now)) }
    ensures err { IfErr result (StopsUnless (is_valid_for second kind.now (known_seen known.now) (view operation.now))) }
{
    match word_of(operation) {
        Some(word) => step_of_word(alloc, second, kind, word, operation, known),
        None => Err(Stop::Broken),
    }
}

/// The steps of a script, which an actor of that kind makes, in a file of version 2 or of version 1.
fn steps_in(
    alloc: Global,
    second: bool,
    kind: &str,
    script: &[Value<'_>],
    known: &Known<'_>,
) -> Result<Vec<Step>, Stop>
    requires few { AreFew known.now }
    ensures valid { IfOk result (λ _. list_all (is_valid_for second kind.now (known_seen known.now)) (map view script.now) ≡ true) }
    ensures spells { length known.now.marks ≤ 200000 → IfOk result (λ v. v.items ≡ map (whole_step (known_seen known.now)) (map view script.now)) }
    ensures err { IfErr result (StopsUnless (list_all (is_valid_for second kind.now (known_seen known.now)) (map view script.now))) }
{
    let mut steps = Vec::with_capacity(alloc, script.len())?;
    for operation in script {
        steps.push(step_in(alloc, second, kind, operation, known)?)?;
    }
    Ok(steps)
}

/// The kind of an actor, if one is named.
fn kind_at(actor: &Value<'_>) -> Option<TaskKind>
    ensures { result ≡ find (λ k. has_text (codes "kind") (kind_word k) (view actor.now)) task_kinds }
{
    match get(actor, "kind") {
        Some(kind) => kind_in(kind),
        None => None,
    }
}

#[tactic(auto, using(file_rules::proofs::Namings::kind_found))]
fn kind_of(actor: &Value<'_>) -> TaskKind
    ensures { result ≡ kind_of (view actor.now) }
{
    kind_at(actor).unwrap_or(TaskKind::User)
}

/// The script of an actor, in a file of version 2 or of version 1.
fn script_in(
    alloc: Global,
    second: bool,
    actor: &Value<'_>,
    known: &Known<'_>,
) -> Result<Script, Stop>
    requires few { AreFew known.now }
    requires fits { FitsScript (view actor.now) }
    ensures valid { IfOk result (λ _. is_valid_script second (known_seen known.now) (view actor.now) ≡ true) }
    ensures spells { length known.now.marks ≤ 200000 → IfOk result (λ s. s ≡ whole_script (known_seen known.now) (view actor.now)) }
    ensures err { IfErr result (StopsUnless (is_valid_script second (known_seen known.now) (view actor.now))) }
{
    let name = name_of_text(text_at(actor, "name"));
    let repeat = small_or(actor, "repeat", 1);
    let kind = text_at(actor, "kind");
    let steps = steps_in(alloc, second, kind, list_in(actor, "script"), known)?;
    Ok(Script {
        name,
        kind: kind_of(actor),
        repeat,
        steps: ListOf::of_vec(steps),
    })
}

/// The scripts of these actors, in a file of version 2 or of version 1.
pub(crate) fn scripts_in(
    alloc: Global,
    second: bool,
    actors: &[Value<'_>],
    known: &Known<'_>,
) -> Result<Vec<Script>, Stop>
    requires few { AreFew known.now }
    requires fit { All FitsScript (map view actors.now) }
    ensures valid { IfOk result (λ _. list_all (is_valid_script second (known_seen known.now)) (map view actors.now) ≡ true) }
    ensures spells { length known.now.marks ≤ 200000 → IfOk result (λ v. v.items ≡ map (whole_script (known_seen known.now)) (map view actors.now)) }
    ensures err { IfErr result (StopsUnless (list_all (is_valid_script second (known_seen known.now)) (map view actors.now))) }
{
    let mut scripts = Vec::with_capacity(alloc, actors.len())?;
    for actor in actors {
        scripts.push(script_in(alloc, second, actor, known)?)?;
    }
    Ok(scripts)
}
