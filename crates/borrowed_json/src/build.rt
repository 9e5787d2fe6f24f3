//! A value is built as its tokens are read.

ghost use Rattle.std.specs.Prelude.{◌≡◌, ◌<◌, ◌≤◌, ◌++◌, ◌∷◌, [], length, drop, take, Some, None, Err, IfOk, OnOk};
ghost use Rattle.json.specs.Json.{value, items, members};
ghost use Rattle.serde_json.specs.Data.{no_members};
ghost use Rattle.serde_json.specs.Read.{of_json, of_items, of_members, converted};
ghost use Rattle.borrowed_json.specs.View.{view, items_view, members_view};

use crate::numbers::number_of;
use crate::tree::{Member, Value};
use bumpalo::Bump;
use json::{Invalid, Reader, Token};
use std::alloc::{AllocError, Global};

/// Why no value is read.
#[derive(Clone, Copy)]
pub(crate) enum Unread {
    Invalid,
    Mem,
}

impl From<Invalid> for Unread {
    ghost use Rattle.std.specs.Prelude.{◌≡◌};
    ghost use Rattle.borrowed_json.specs.declared.build.Unread.TheVariants.{Invalid as invalid};

    ghost from_gives = { λ _ e. e ≡ invalid };

    fn from(_refused: Invalid) -> Unread {
        Unread::Invalid
    }
}

impl From<AllocError> for Unread {
    ghost use Rattle.std.specs.Prelude.{◌≡◌};
    ghost use Rattle.borrowed_json.specs.declared.build.Unread.TheVariants.{Mem as mem};

    ghost from_gives = { λ _ e. e ≡ mem };

    fn from(_refused: AllocError) -> Unread {
        Unread::Mem
    }
}

/// The items and the members that were read of lists and objects whose end was not. What a list or an object
/// has stands in the arena after its end.
#[derive(Drop)]
struct Pending<'a> {
    arena: &'a Bump,
    items: Vec<Value<'a>>,
    members: Vec<Member<'a>>,
}

impl<'a> Pending<'a> {
    ghost use Rattle.std.specs.Prelude.{◌≡◌, []};

    /// Nothing was read.
    fn new(alloc: Global, arena: &'a Bump) -> Pending<'a>
        ensures items { result.items.items ≡ [] }
        ensures members { result.members.items ≡ [] }
    {
        Pending {
            arena,
            items: Vec::new(alloc),
            members: Vec::new(alloc),
        }
    }
}

/// Puts one more at the end of a list.
#[inline(always)]
fn put<T: Copy>(list: &mut Vec<T>, item: T) -> Result<(), AllocError>
    ensures { OnOk result (list.new.items ≡ list.old.items ++ item ∷ []) }
{
    if list.len() < list.capacity() {
        list.push_reserved(item);
        return Ok(());
    }
    list.push(item)?;
    Ok(())
}

/// Takes all but the first `start` off a list, into the arena.
#[inline(always)]
fn moved_from<'a, T: Copy>(
    arena: &'a Bump,
    list: &mut Vec<T>,
    start: usize,
) -> Result<&'a [T], AllocError>
    requires { start ≤ length list.old.items }
    ensures moved { IfOk result (λ s. s.now ≡ drop start list.old.items) }
    ensures left { OnOk result (list.new.items ≡ take start list.old.items) }
{
    let moved = arena.try_alloc_slice_copy(&list[start..])?;
    list.truncate(start);
    Ok(moved)
}

/// The next value. Lists and objects may nest `depth` deep in it.
#[cycle(build)]
#[inline(always)]
fn value_in<'a>(
    reader: &mut Reader<'a>,
    pending: &mut Pending<'a>,
    depth: usize,
) -> Result<Value<'a>, Unread>
    ensures ok { IfOk result (λ v. converted of_json (value depth reader.old) ≡ Some (view v, reader.new)) }
    ensures shorter { OnOk result (length reader.new < length reader.old) }
    ensures items { OnOk result (pending.new.items.items ≡ pending.old.items.items) }
    ensures members { OnOk result (pending.new.members.items ≡ pending.old.members.items) }
    ensures err { result ≡ Err Unread.Invalid → converted of_json (value depth reader.old) ≡ None }
{
    let token = reader.next().ok_or(Unread::Invalid)?;
    match token {
        Token::String(text) => Ok(Value::String(text)),
        Token::Number(text) => match number_of(text) {
            Some(number) => Ok(Value::Number(number)),
            None => Err(Unread::Invalid),
        },
        Token::Bool(truth) => Ok(Value::Bool(truth)),
        Token::Null => Ok(Value::Null),
        Token::EndObject | Token::EndArray | Token::Key(_) | Token::Bad => Err(Unread::Invalid),
        Token::BeginArray => {
            if depth == 0 {
                return Err(Unread::Invalid);
            }
            Ok(Value::Array(items_in(reader, pending, depth - 1)?))
        }
        Token::BeginObject => {
            if depth == 0 {
                return Err(Unread::Invalid);
            }
            Ok(Value::Object(members_in(reader, pending, depth - 1)?))
        }
    }
}

/// The items of a list, up to its end.
#[cycle(build)]
#[inline(never)]
fn items_in<'a>(
    reader: &mut Reader<'a>,
    pending: &mut Pending<'a>,
    depth: usize,
) -> Result<&'a [Value<'a>], Unread>
    ensures ok { IfOk result (λ s. converted of_items (items (value depth) (length reader.old) reader.old) ≡ Some (items_view s.now, reader.new)) }
    ensures shorter { OnOk result (length reader.new < length reader.old) }
    ensures items { OnOk result (pending.new.items.items ≡ pending.old.items.items) }
    ensures members { OnOk result (pending.new.members.items ≡ pending.old.members.items) }
    ensures err { result ≡ Err Unread.Invalid → converted of_items (items (value depth) (length reader.old) reader.old) ≡ None }
{
    let start = pending.items.len();
    'items: while !reader.take_end_array() {
        let item = value_in(reader, pending, depth)?;
        put(&mut pending.items, item)?;
    }
    Ok(moved_from(pending.arena, &mut pending.items, start)?)
}

/// The members of an object, up to its end.
#[cycle(build)]
#[inline(never)]
fn members_in<'a>(
    reader: &mut Reader<'a>,
    pending: &mut Pending<'a>,
    depth: usize,
) -> Result<&'a [Member<'a>], Unread>
    ensures ok { IfOk result (λ s. converted (λ ms. of_members ms no_members) (members (value depth) (length reader.old) reader.old) ≡ Some (members_view s.now, reader.new)) }
    ensures shorter { OnOk result (length reader.new < length reader.old) }
    ensures items { OnOk result (pending.new.items.items ≡ pending.old.items.items) }
    ensures members { OnOk result (pending.new.members.items ≡ pending.old.members.items) }
    ensures err { result ≡ Err Unread.Invalid → converted (λ ms. of_members ms no_members) (members (value depth) (length reader.old) reader.old) ≡ None }
{
    let start = pending.members.len();
    'members: while let Some(name) = reader.next_key()? {
        let value = value_in(reader, pending, depth)?;
        put(&mut pending.members, (name, value))?;
    }
    Ok(moved_from(pending.arena, &mut pending.members, start)?)
}

/// The next value, in which lists and objects may nest `depth` deep.
pub(crate) fn next_value<'a>(
    alloc: Global,
    reader: &mut Reader<'a>,
    arena: &'a Bump,
    depth: usize,
) -> Result<Value<'a>, Unread>
    ensures ok { IfOk result (λ v. converted of_json (value depth reader.old) ≡ Some (view v, reader.new)) }
    ensures err { result ≡ Err Unread.Invalid → converted of_json (value depth reader.old) ≡ None }
{
    let mut pending = Pending::new(alloc, arena);
    value_in(reader, &mut pending, depth)
}
