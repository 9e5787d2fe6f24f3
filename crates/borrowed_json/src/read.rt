//! From bytes to a value.

ghost use Rattle.std.specs.Prelude.{◌≡◌, IfNone, IfOk, IfSome, IsUtf8, None, Some};
ghost use Rattle.serde_json.specs.Read.{read};
ghost use Rattle.borrowed_json.specs.View.{view};

use crate::build::{Unread, next_value};
use crate::tree::{Scratch, Value};
use json::Reader;
use sleep_base::Mem;
use std::alloc::Global;

/// How deep arrays and objects nest at most in what `serde_json` reads.
const MAX_DEPTH: usize = 127;

/// The value that the bytes are. None exactly if `serde_json` reads none.
///
/// The scratch stores what the value consists of, and is lent for as long as the value is.
///
/// `Mem`: memory ran out.
pub fn read_value<'a>(
    alloc: Global,
    bytes: &'a [u8],
    scratch: &'a mut Scratch,
) -> Result<Option<Value<'a>>, Mem>
    ensures read { IfOk result (λ o. IfSome o (λ v. IsUtf8 bytes.now × (read bytes.now ≡ Some (view v)))) }
    ensures none { IfOk result (λ o. IfNone o (IsUtf8 bytes.now → read bytes.now ≡ None)) }
{
    match std::str::from_utf8(bytes) {
        Ok(text) => read_text(alloc, text, scratch),
        Err(_) => Ok(None),
    }
}

/// The value that a text is, read with that scratch.
fn read_text<'a>(
    alloc: Global,
    text: &'a str,
    scratch: &'a mut Scratch,
) -> Result<Option<Value<'a>>, Mem>
    ensures read { IfOk result (λ o. IfSome o (λ v. read text.now ≡ Some (view v))) }
    ensures none { IfOk result (λ o. IfNone o (read text.now ≡ None)) }
{
    let Scratch { texts, arena } = scratch;
    let mut reader = Reader::new(text, texts)?;
    let value = match next_value(alloc, &mut reader, arena, MAX_DEPTH) {
        Ok(value) => value,
        Err(Unread::Mem) => return Err(Mem),
        Err(Unread::Invalid) => return Ok(None),
    };
    if reader.next().is_some() {
        return Ok(None);
    }
    Ok(Some(value))
}
