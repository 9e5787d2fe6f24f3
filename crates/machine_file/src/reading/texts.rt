//! Names and texts of a machine, from the texts of its file.

ghost use Rattle.std.specs.Prelude.{◌≡◌, All, IfOk};
ghost use Rattle.file_rules.specs.Knows.{texts};
ghost use Rattle.file_rules.specs.Fitting.{IsShort};

use file_rules::name_of_text;
use sleep_base::Mem;
use sleep_model::{Name, Text};
use std::alloc::Global;

/// The names that texts spell.
pub(crate) fn names_of_texts(alloc: Global, all: &[&str]) -> Result<Vec<Name>, Mem>
    requires { All IsShort (texts all.now) }
    ensures { IfOk result (λ v. v.items ≡ texts all.now) }
{
    let mut names = Vec::with_capacity(alloc, all.len())?;
    for text in all {
        names.push(name_of_text(text))?;
    }
    Ok(names)
}

/// A text that is written to a file.
pub(crate) fn text_from(alloc: Global, text: &str) -> Result<Text, Mem>
    ensures { IfOk result (λ t. t ≡ text.now) }
{
    let bytes = Vec::from_slice(alloc, text.as_bytes())?;
    Ok(Text::of_vec(bytes))
}
