//! The lines of entries, of sources and of stuck scripts, written.
ghost use Rattle.std.specs.Prelude.{◌≡◌, ◌+◌, ◌≤◌, ◌++◌, IfSome, codes, decimal, length, slice_get};
ghost use Rattle.sleep_model.specs.declared.machine.Machine.{Machine};
ghost use Rattle.log_words.specs.Front.{front_text, maker_text};
ghost use Rattle.sleep_model.specs.Text.{body, hard_word, newline, source, space, script_text, waiting_text, entry_line, source_line, counts_text, times_text, waiting_line};

use crate::writing::body::put_body;
use crate::writing::put::put;
use crate::writing::ready::ReadyNames;
use log_words::{
    ByteBuffer, LineFront, Piece, ShortText, Spelled, Verb, device_words, script_word,
};
use sleep_model::{Actor, Entry, Kind, Stats, Waiting, Why};

/// Writes who makes an entry, with the space after it.
#[inline(always)]
fn put_maker(out: &mut ByteBuffer, names: &ReadyNames, actor: Actor)
    requires { length out.old + 192 ≤ 32768 }
    ensures text { out.new ≡ out.old ++ maker_text names.now actor }
    ensures few { length out.new ≤ length out.old + 192 }
{
    if let Some(text) = names.maker(actor) {
        out.put_short(text);
        return;
    }
    match actor {
        Actor::Script(index) => {
            put_script(out, names, index);
            put!(out; b' ')
        }
        Actor::Auto => put!(out; "auto "),
        Actor::Dev(index) => put_named(out, "dev:", names.device(index)),
        Actor::Timer(index) => put_named(out, "timer:", names.source(index)),
        Actor::Time => put!(out; "time "),
    }
}

/// Writes a maker of that kind by its name, with the space after it.
fn put_named(out: &mut ByteBuffer, kind: &str, name: &ShortText)
    requires short { length kind.now ≤ 64 }
    requires room { length out.old + 192 ≤ 32768 }
    ensures text { out.new ≡ out.old ++ ((kind.now ++ name.now) ++ space) }
    ensures few { length out.new ≤ length out.old + 192 }
{
    put!(out; kind, name, b' ')
}

/// Writes which script it is.
fn put_script(out: &mut ByteBuffer, names: &ReadyNames, index: u32)
    requires { length out.old + 128 ≤ 32768 }
    ensures text { out.new ≡ out.old ++ script_text (slice_get names.now.actors index) }
    ensures few { length out.new ≤ length out.old + 128 }
{
    match names.machine().actors.as_slice().get(index as usize) {
        None => {}
        Some(script) => put!(out; script_word(script.kind), names.task(index)),
    }
}

/// Writes the line of an entry piece by piece, whose front is given.
#[cold]
#[inline(never)]
fn put_fields(out: &mut ByteBuffer, names: &ReadyNames, front: &LineFront, actor: Actor, kind: Kind)
    requires room { length out.old + 1024 ≤ 32768 }
    ensures text { out.new ≡ out.old ++ (front_text front.now.time front.now.word ++ maker_text names.now actor ++ body names.now kind ++ newline) }
    ensures few { length out.new ≤ length out.old + 1024 }
{
    put!(out; front.text());
    put_maker(out, names, actor);
    put_body(out, names, kind);
    put!(out; b'\n')
}

/// Writes what an entry says, to the end of its line.
#[inline(never)]
fn put_entry_text(out: &mut ByteBuffer, names: &ReadyNames, kind: Kind)
    requires room { length out.old + 576 ≤ 32768 }
    ensures text { out.new ≡ out.old ++ (body names.now kind ++ newline) }
    ensures few { length out.new ≤ length out.old + 576 }
{
    put_body(out, names, kind);
    put!(out; b'\n')
}

/// Writes what an entry of an event says, to the end of its line. It stands apart, as `put_sleep` does, so
/// that a line stays short enough to be written in line: digits take much code.
#[inline(never)]
fn put_event(out: &mut ByteBuffer, source: &ShortText, ms: u32, hard: bool)
    requires room { length out.old + 140 ≤ 32768 }
    ensures text { out.new ≡ out.old ++ (codes "event " ++ source.now ++ space ++ decimal ms ++ space ++ hard_word hard ++ newline) }
    ensures few { length out.new ≤ length out.old + 140 }
{
    let last = if hard {
        Piece::of(b" hard\n          ", 6)
    } else {
        Piece::of(b" soft\n          ", 6)
    };
    out.put_named(
        &Piece::of(b"event           ", 6),
        source,
        &Piece::of(b"                ", 1),
    );
    out.put_numbered(&Piece::none(), u64::from(ms), &last);
}

/// Writes a verb and the name of a source, to the end of the line.
#[inline(always)]
fn put_of_source(out: &mut ByteBuffer, verb: Piece, source: &ShortText)
    requires room { length out.old + 88 ≤ 32768 }
    ensures text { out.new ≡ out.old ++ (verb ++ source.now ++ newline) }
    ensures few { length out.new ≤ length out.old + 88 }
{
    out.put_named(&verb, source, &Piece::newline());
}

/// Writes until when a script sleeps, to the end of its line.
#[inline(never)]
fn put_sleep(out: &mut ByteBuffer, ms: u64)
    requires room { length out.old + 52 ≤ 32768 }
    ensures text { out.new ≡ out.old ++ (codes "sleep " ++ decimal ms ++ newline) }
    ensures few { length out.new ≤ length out.old + 52 }
{
    out.put_numbered(&Piece::of(b"sleep           ", 6), ms, &Piece::newline());
}

/// The verb that an entry has before the name of a source, and the source, if that is all that it says.
#[inline(always)]
fn source_words(kind: Kind) -> Option<(Piece, u32)>
    ensures { IfSome result (λ w. (m : Machine) → body m kind ++ newline ≡ w.0 ++ source m w.1 ++ newline) }
{
    match kind {
        Kind::Expire(source) => Some((Piece::of(b"expire          ", 7), source)),
        Kind::Start(source) => Some((Piece::of(b"start           ", 6), source)),
        Kind::Finish(source) => Some((Piece::of(b"finish          ", 7), source)),
        Kind::Hard(source) => Some((Piece::of(b"hard            ", 5), source)),
        _ => None,
    }
}

/// Writes what an entry says, to the end of its line: of sleeping, of sources and of time what is ready, else
/// part by part.
#[inline(always)]
fn put_rest(out: &mut ByteBuffer, names: &ReadyNames, kind: Kind)
    requires room { length out.old + 576 ≤ 32768 }
    ensures text { out.new ≡ out.old ++ (body names.now kind ++ newline) }
    ensures few { length out.new ≤ length out.old + 576 }
{
    if let Some((verb, source)) = source_words(kind) {
        return put_of_source(out, verb, names.source(source));
    }
    match kind {
        Kind::Sleep(ms) => put_sleep(out, ms),
        Kind::Slept => out.put_piece(&Piece::of(b"slept\n          ", 6)),
        Kind::Event { source, ms, hard } => put_event(out, names.source(source), ms, hard),
        Kind::Jump => out.put_piece(&Piece::of(b"jump\n           ", 5)),
        _ => put_entry_text(out, names, kind),
    }
}

/// Writes the line of an entry, whose front is given.
#[inline(always)]
pub fn spell_entry(out: &mut ByteBuffer, names: &ReadyNames, front: &LineFront, entry: Entry)
    requires time { front.now.time ≡ entry.time }
    requires word { front.now.word ≡ entry.now }
    requires room { length out.old + 1024 ≤ 32768 }
    ensures text { out.new ≡ out.old ++ entry_line names.now entry }
    ensures few { length out.new ≤ length out.old + 1024 }
{
    let Some(maker) = names.maker(entry.actor) else {
        return put_fields(out, names, front, entry.actor, entry.kind);
    };
    if let Some(words) = device_words(entry.kind)
        && let Some(device) = names.known_device(words.device)
    {
        out.put_line(front.text(), maker, &words, device);
    } else {
        out.put_start(front.text(), maker);
        put_rest(out, names, entry.kind);
    }
}

/// Writes the line of a wakeup source.
pub fn spell_source(out: &mut ByteBuffer, name: &[u8], stats: &Stats)
    requires name { length name.now ≤ 64 }
    requires room { length out.old + 1152 ≤ 32768 }
    ensures text { out.new ≡ out.old ++ source_line name.now stats.now }
    ensures few { length out.new ≤ length out.old + 1152 }
{
    put!(out; "source ", name);
    put_counts(out, stats);
    put_times(out, stats);
    put!(out; "\n")
}

/// Writes a source's counts, each after a space.
fn put_counts(out: &mut ByteBuffer, stats: &Stats)
    requires { length out.old + 384 ≤ 32768 }
    ensures text { out.new ≡ out.old ++ counts_text stats.now }
    ensures few { length out.new ≤ length out.old + 384 }
{
    put!(out; " ", stats.active_count, " ", stats.event_count, " ", stats.expire_count)
}

/// Writes a source's times, each after a space.
fn put_times(out: &mut ByteBuffer, stats: &Stats)
    requires { length out.old + 512 ≤ 32768 }
    ensures text { out.new ≡ out.old ++ times_text stats.now }
    ensures few { length out.new ≤ length out.old + 512 }
{
    put!(out; " ", stats.active_time, " ", stats.total_time);
    put!(out; " ", stats.max_time, " ", stats.last_time)
}

/// Writes the line of a script that never exits.
pub fn spell_waiting(out: &mut ByteBuffer, names: &ReadyNames, waiting: &Waiting)
    requires { length out.old + 512 ≤ 32768 }
    ensures text { out.new ≡ out.old ++ waiting_line names.now waiting.now }
    ensures few { length out.new ≤ length out.old + 512 }
{
    put!(out; "stuck ");
    put_maker(out, names, waiting.actor);
    put_why(out, names, waiting.why);
    put!(out; "\n")
}

/// Writes what such a script waits for.
fn put_why(out: &mut ByteBuffer, names: &ReadyNames, why: Why)
    requires { length out.old + 128 ≤ 32768 }
    ensures text { out.new ≡ out.old ++ waiting_text names.now why }
    ensures few { length out.new ≤ length out.old + 128 }
{
    match why {
        Why::InProgress => put!(out; Verb::Read),
        Why::Mark(index) => put!(out; "mark ", names.mark(index)),
        _ => {}
    }
}
