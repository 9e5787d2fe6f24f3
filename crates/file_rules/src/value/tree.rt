//! From bytes to a JSON value.

ghost use Rattle.std.specs.Prelude.{◌≡◌, IfOk, IfSome, IfNone, None, Some};
ghost use Rattle.borrowed_json.specs.View.{view};
ghost use Rattle.file_rules.specs.Tree.{tree};

use borrowed_json::{Scratch, Value, read_value};
use sleep_base::Mem;
use std::alloc::Global;

/// The JSON value that the bytes are. None exactly if they are none.
pub fn tree_of<'v>(
    alloc: Global,
    bytes: &'v [u8],
    scratch: &'v mut Scratch,
) -> Result<Option<Value<'v>>, Mem>
    ensures read { IfOk result (λ o. IfSome o (λ v. tree bytes.now ≡ Some (view v))) }
    ensures none { IfOk result (λ o. IfNone o (tree bytes.now ≡ None)) }
{
    read_value(alloc, bytes, scratch)
}
