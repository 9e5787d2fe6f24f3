//! The operations of scripts: their form, who may make them, and what they name.

ghost use Rattle.std.specs.Prelude.{true, ◌≡◌, Some, bytes_eq, ◌||◌, ◌&&◌, not, map, position, option_map, codes, ◌∷◌, nat_le, length};
ghost use Rattle.std.specs.List.{list_any};
ghost use Rattle.borrowed_json.specs.View.{view};
ghost use Rattle.serde_json.specs.Find.{as_str};
ghost use Rattle.sleep_model.specs.Text.{kind_word};
ghost use Rattle.borrowed_json.specs.Look.{is_some_and, is_none_or, has_only, must_have, may_have, list_in, word_at};
ghost use Rattle.file_rules.specs.Places.{first_not, first_operation, first_operation_of};
ghost use Rattle.file_rules.specs.Names.{is_among_names};
ghost use Rattle.file_rules.specs.Operations.{is_formed, is_allowed, has_count, has_short_text, is_state_form, has_length, has_mark, is_runtime_form, has_ends_named, is_link_state_form, changes_links, has_source, is_event_form, row_of, fits_row, names_source, names_device, unformed_operation, forbidden_operation, sourceless_operation, deviceless_operation};
ghost use Rattle.file_rules.specs.OperationRows.{operation_of_word, first_version, word_changes_links, row_named, operation_test};
ghost use Rattle.file_rules.specs.Knows.{Knows, names, texts};
ghost use Rattle.file_rules.specs.Broken.{place_of};

use crate::names::devices::{NamedDevices, is_device};
use crate::names::known::{Known, contains};
use crate::rules::form::{DAY, has_ends, link_states, statuses};
use crate::rules::items::must_be_name;
use crate::value::place::{Member, Place, items};
use borrowed_json::{
    Value, as_str, get, has_only, is_same, list_in, may_be_truth, may_be_within, must_be_one_of,
    must_be_text, must_be_within, text_at, word_at,
};
use key_index::KeyIndex;
use sleep_model::TaskKind;

/// The word of an operation.
#[derive(Clone, Copy)]
pub enum Word {
    Read,
    Save,
    State,
    Autosleep,
    Sleep,
    SleepD,
    FreezePoint,
    Post,
    Wait,
    Runtime,
    Link,
    LinkState,
    Awake,
    Relax,
    Event,
}

/// The most times that an operation is made.
pub const MOST_TIMES: u64 = 20_000;

/// A test of an operation of an actor.
#[derive(Clone, Copy)]
pub(crate) enum OperationTest {
    /// In a file of version 2, or of version 1.
    Formed(bool),
    Allowed,
    Source,
    Device,
}

/// Picks one column of the table of operations. A row has, in turn: its word, its name, the first version
/// of the file that has it, who may make it, its members, the form of these, how an operation of it is
/// tested and read, and how it is written. The last three speak of the names that the column brings along;
/// `machine_file` reads and writes by the last two, with functions of its own.
#[macro_export]
macro_rules! by_operation {
    (@named $text:expr; $($word:ident $name:literal $version:literal $makers:ident $members:tt $form:block $read:block [$op:pat] $written:block)*) => {
        {
            $(if is_same($text, $name) {
                return Some(Word::$word);
            })*
            None
        }
    };
    (@version $from:expr; $($word:ident $name:literal $version:literal $makers:ident $members:tt $form:block $read:block [$op:pat] $written:block)*) => {
        match $from { $(Word::$word => $version,)* }
    };
    (@makers ($from:expr, $kind:expr); $($word:ident $name:literal $version:literal $makers:ident $members:tt $form:block $read:block [$op:pat] $written:block)*) => {
        match $from { $(Word::$word => names_kind($kind, &$makers),)* }
    };
    (@members $from:expr; $($word:ident $name:literal $version:literal $makers:ident [$($member:literal)*] $form:block $read:block [$op:pat] $written:block)*) => {
        match $from { $(Word::$word => &["op", "times" $(, $member)*],)* }
    };
    (@form $from:expr; $($word:ident $name:literal $version:literal $makers:ident $members:tt $form:block $read:block [$op:pat] $written:block)*) => {
        match $from { $(Word::$word => $form,)* }
    };
    (@read $from:expr; $($word:ident $name:literal $version:literal $makers:ident $members:tt $form:block $read:block [$op:pat] $written:block)*) => {
        match $from { $(Word::$word => $read,)* }
    };
    (@written $from:expr; $($word:ident $name:literal $version:literal $makers:ident $members:tt $form:block $read:block [$op:pat] $written:block)*) => {
        match $from { $($op => $written,)* }
    };
    ($column:ident of $from:tt) => {
        $crate::by_operation! { $column of $from; () () () () () () }
    };
    (form of $from:tt, $operation:ident) => {
        $crate::by_operation! { form of $from; () $operation () () () () }
    };
    (read of $from:tt, $alloc:ident, $operation:ident, $known:ident) => {
        $crate::by_operation! { read of $from; $alloc $operation $known () () () }
    };
    (written of $from:tt, $out:ident, $machine:ident, $times:ident) => {
        $crate::by_operation! { written of $from; () () () $out $machine $times }
    };
    ($column:ident of $from:tt; $alloc:tt $operation:tt $known:tt $out:tt $machine:tt $times:tt) => {
        $crate::by_operation! { @$column $from;
            Read "read" 1 USERS []
                { true }
                { Ok(Op::Read) }
                [Op::Read] { put_word($out, "read", $times) }
            Save "save" 1 USERS ["count"]
                { may_be_within($operation, "count", 0, 4_294_967_295) }
                { Ok(Op::Save { count: optional_within($operation, "count", 0, 4_294_967_295)? }) }
                [Op::Save { count }] {
                    $out.number_if("count", *count)?;
                    put_word($out, "save", $times)
                }
            State "state" 1 USERS ["text" "if_saved"]
                { has_short_text($operation) && may_be_truth($operation, "if_saved") }
                { state_in($alloc, $operation) }
                [Op::State { text, if_saved }] {
                    $out.true_if("if_saved", *if_saved)?;
                    put_text($out, "state", text.as_slice(), $times)
                }
            Autosleep "autosleep" 1 USERS ["text"]
                { has_short_text($operation) }
                { Ok(Op::Autosleep { text: text_in($alloc, $operation)? }) }
                [Op::Autosleep { text }] { put_text($out, "autosleep", text.as_slice(), $times) }
            Sleep "sleep" 1 EVERYONE ["ms"]
                { must_be_within($operation, "ms", 1, DAY) }
                { Ok(Op::Sleep { ms: length_in($operation)? }) }
                [Op::Sleep { ms }] { put_sleep($out, "sleep", *ms, $times) }
            SleepD "sleep_d" 1 TASKS ["ms"]
                { must_be_within($operation, "ms", 1, DAY) }
                { Ok(Op::SleepD { ms: length_in($operation)? }) }
                [Op::SleepD { ms }] { put_sleep($out, "sleep_d", *ms, $times) }
            FreezePoint "freeze_point" 1 TASKS []
                { true }
                { Ok(Op::FreezePoint) }
                [Op::FreezePoint] { put_word($out, "freeze_point", $times) }
            Post "post" 1 EVERYONE ["mark"]
                { must_be_name($operation, "mark") }
                { Ok(Op::Post { mark: mark_in($operation, &$known.marks)? }) }
                [Op::Post { mark }] { put_mark($out, "post", $machine.mark_name(*mark), $times) }
            Wait "wait" 1 EVERYONE ["mark"]
                { must_be_name($operation, "mark") }
                { Ok(Op::Wait { mark: mark_in($operation, &$known.marks)? }) }
                [Op::Wait { mark }] { put_mark($out, "wait", $machine.mark_name(*mark), $times) }
            Runtime "runtime" 1 TASKS ["device" "to"]
                { must_be_text($operation, "device") && must_be_one_of($operation, "to", &statuses()) }
                { runtime_in($operation, $known) }
                [Op::Runtime { device, to_suspended }] {
                    $out.text("device", $machine.device_name(*device))?;
                    put_word($out, "runtime", $times)?;
                    $out.text("to", runtime_word(*to_suspended).as_bytes())
                }
            Link "link" 2 TASKS ["supplier" "consumer"]
                { has_ends($operation) }
                {
                    let (supplier, consumer) = ends_in($operation, &$known.devices)?;
                    Ok(Op::Link { supplier, consumer })
                }
                [Op::Link { supplier, consumer }] {
                    put_link($out, $machine, "link", *supplier, *consumer, $times)
                }
            LinkState "link_state" 2 TASKS ["supplier" "consumer" "to"]
                { has_ends($operation) && must_be_one_of($operation, "to", &link_states()) }
                { link_state_in($operation, $known) }
                [Op::LinkState { supplier, consumer, active }] {
                    put_link($out, $machine, "link_state", *supplier, *consumer, $times)?;
                    $out.text("to", link_word(*active).as_bytes())
                }
            Awake "awake" 1 EVERYONE ["source"]
                { must_be_text($operation, "source") }
                { Ok(Op::Awake { source: thing_in($operation, "source", &$known.sources)? }) }
                [Op::Awake { source }] { put_source($out, "awake", $machine.source_name(*source), $times) }
            Relax "relax" 1 EVERYONE ["source"]
                { must_be_text($operation, "source") }
                { Ok(Op::Relax { source: thing_in($operation, "source", &$known.sources)? }) }
                [Op::Relax { source }] { put_source($out, "relax", $machine.source_name(*source), $times) }
            Event "event" 1 EVERYONE ["source" "ms" "hard"]
                {
                    must_be_text($operation, "source")
                        && may_be_within($operation, "ms", 0, DAY)
                        && may_be_truth($operation, "hard")
                }
                { event_in($operation, $known) }
                [Op::Event { source, ms, hard }] {
                    $out.true_if("hard", *hard)?;
                    $out.number_unless("ms", 0, u64::from(*ms))?;
                    put_source($out, "event", $machine.source_name(*source), $times)
                }
        }
    };
}

// Only user space.
const USERS: [TaskKind; 1] = [TaskKind::User];

// Every task.
const TASKS: [TaskKind; 3] = [TaskKind::User, TaskKind::Kthread, TaskKind::NoFreeze];

// Every task, and interrupt lines.
const EVERYONE: [TaskKind; 4] = [
    TaskKind::User,
    TaskKind::Kthread,
    TaskKind::NoFreeze,
    TaskKind::Irq,
];

impl Word {
    ghost use Rattle.std.specs.Prelude.{◌≡◌, bytes_eq, find};
    ghost use Rattle.file_rules.specs.OperationRows.{operation_of_word, words};

    /// The word that a text is. None if it is none of the table. Row after row is compared with the text, since
    /// most names differ from it in length.
    fn of_text(text: &str) -> Option<Word>
        ensures { result ≡ find (λ w. bytes_eq text.now (operation_of_word w).word) words }
    {
        by_operation!(named of text)
    }
}

/// The word of an operation, if it is of the table.
pub fn word_of(operation: &Value<'_>) -> Option<Word>
    ensures { option_map operation_of_word result ≡ row_of (view operation.now) }
{
    match word_at(operation, "op") {
        Some(text) => Word::of_text(text),
        None => None,
    }
}

/// Whether the operation has no members but those of its word.
pub fn has_members(operation: &Value<'_>, word: Word) -> bool
    ensures { result ≡ has_only (codes "op" ∷ codes "times" ∷ (operation_of_word word).members) (view operation.now) }
{
    has_only(operation, by_operation!(members of word))
}

/// Whether a text of at most 32 bytes is given.
pub fn has_short_text(operation: &Value<'_>) -> bool
    ensures { result ≡ has_short_text (view operation.now) }
{
    match get(operation, "text") {
        Some(text) => is_short_text(text),
        None => false,
    }
}

fn is_short_text(value: &Value<'_>) -> bool
    ensures { result ≡ is_some_and (λ s. nat_le (length s) 32) (as_str (view value.now)) }
{
    match as_str(value) {
        Some(text) => text.len() <= 32,
        None => false,
    }
}

/// The first version of the file that has operations of that word.
fn first_version(word: Word) -> u64
    ensures { result ≡ first_version word }
{
    by_operation!(version of word)
}

/// Whether a file of version 2, or of version 1, may have an operation of that word.
pub fn is_of_version(second: bool, word: Word) -> bool
    ensures { result ≡ (second || not (word_changes_links word)) }
{
    second || first_version(word) == 1
}

/// Whether the devices that it names, if it names any, are of these.
fn names_devices(operation: &Value<'_>, devices: &NamedDevices) -> bool
    ensures { result ≡ names_device (names devices.now) (view operation.now) }
{
    names_one_device(operation, "device", devices)
        && names_one_device(operation, "supplier", devices)
        && names_one_device(operation, "consumer", devices)
}

/// Whether the device that it names there, if it names one, is of these.
fn names_one_device(operation: &Value<'_>, member: &str, devices: &NamedDevices) -> bool
    ensures { result ≡ is_none_or (is_among_names (names devices.now)) (word_at member.now (view operation.now)) }
{
    match word_at(operation, member) {
        Some(name) => is_device(devices, name),
        None => true,
    }
}

/// Whether what the word asks for is given.
fn has_form(operation: &Value<'_>, word: Word) -> bool
    ensures { result ≡ (operation_of_word word).form (view operation.now) }
{
    by_operation!(form of word, operation)
}

fn is_formed(operation: &Value<'_>, word: Word) -> bool
    ensures { result ≡ fits_row (view operation.now) (operation_of_word word) }
{
    has_members(operation, word)
        && may_be_within(operation, "times", 1, MOST_TIMES)
        && has_form(operation, word)
}

/// Whether the operation, of that word, is one of the table, in form, in a file of version 2 or of version 1.
#[tactic(auto, using(crate::proofs::Worded::changes))]
fn is_formed_as(second: bool, word: Word, operation: &Value<'_>) -> bool
    requires { Some (operation_of_word word) ≡ row_of (view operation.now) }
    ensures { result ≡ ((second || not (changes_links (view operation.now))) && fits_row (view operation.now) (operation_of_word word)) }
{
    is_of_version(second, word) && is_formed(operation, word)
}

/// Whether the operation is one of the table, in form, in a file of version 2 or of version 1.
fn is_of_table(second: bool, operation: &Value<'_>) -> bool
    ensures { result ≡ ((second || not (changes_links (view operation.now))) && is_some_and (fits_row (view operation.now)) (row_of (view operation.now))) }
{
    match word_of(operation) {
        Some(word) => is_formed_as(second, word, operation),
        None => false,
    }
}

/// Whether the text is the word of one of these kinds.
fn names_kind(text: &str, kinds: &[TaskKind]) -> bool
    ensures { result ≡ list_any (λ k. bytes_eq text.now (kind_word k)) kinds.now }
{
    kinds.iter().any(|kind| is_same(text, kind.name()))
}

/// Whether an actor of that kind may make the operation.
pub fn is_allowed(kind: &str, word: Word) -> bool
    ensures { result ≡ is_among_names (operation_of_word word).makers kind.now }
{
    by_operation!(makers of (word, kind))
}

// Whether the thing that it names there, if it names one, is of these.
pub(crate) fn names_one_of(operation: &Value<'_>, member: &str, names: &KeyIndex<&str>) -> bool
    ensures { result ≡ is_none_or (is_among_names (texts names.now)) (word_at member.now (view operation.now)) }
{
    match word_at(operation, member) {
        Some(name) => contains(names, name),
        None => true,
    }
}

fn passes(test: OperationTest, known: &Known<'_>, actor: &Value<'_>, operation: &Value<'_>) -> bool
    ensures { result ≡ operation_test test known.now (view actor.now) (view operation.now) }
{
    match test {
        OperationTest::Formed(second) => is_of_table(second, operation),
        OperationTest::Allowed => match word_of(operation) {
            Some(word) => is_allowed(text_at(actor, "kind"), word),
            None => false,
        },
        OperationTest::Source => names_one_of(operation, "source", &known.sources),
        OperationTest::Device => names_devices(operation, &known.devices),
    }
}

/// The first operation of an actor that does not pass.
fn first_in_script(test: OperationTest, known: &Known<'_>, actor: &Value<'_>) -> Option<usize>
    ensures { result ≡ first_not (operation_test test known.now (view actor.now)) (list_in (codes "script") (view actor.now)) }
{
    first_not(test, known, actor, list_in(actor, "script"))
}

fn first_not(
    test: OperationTest,
    known: &Known<'_>,
    actor: &Value<'_>,
    script: &[Value<'_>],
) -> Option<usize>
    ensures { result ≡ position (λ v. not (operation_test test known.now (view actor.now) (view v))) script.now }
{
    script
        .iter()
        .position(|operation| !passes(test, known, actor, operation))
}

/// The first operation of all scripts that does not pass.
pub(crate) fn first_operation(
    test: OperationTest,
    known: &Known<'_>,
    tree: &Value<'_>,
) -> Option<Place>
    ensures { place_of result ≡ first_operation (operation_test test known.now) (view tree.now) }
{
    first_of_actors(test, known, items(tree, Member::Actors))
}

/// The place of the first operation that fails a test.
fn first_of_actors(test: OperationTest, known: &Known<'_>, actors: &[Value<'_>]) -> Option<Place>
    ensures { place_of result ≡ first_operation_of (operation_test test known.now) 0 (map view actors.now) }
{
    for (i, actor) in actors.iter().enumerate() {
        if let Some(number) = first_in_script(test, known, actor) {
            return Some(Place::Operation(i, number));
        }
    }
    None
}
