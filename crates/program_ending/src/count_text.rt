//! A number after its word, as the texts of commands have it.
ghost use Rattle.std.specs.Prelude.{◌≡◌, ◌++◌, OnOk};
ghost use Rattle.program_ending.specs.Texts.{with_number};

use itoa::Buffer;
use sleep_base::Mem;

/// Puts a word and a number after a text.
pub fn put_count(text: &mut Vec<u8>, word: &str, number: usize) -> Result<(), Mem>
    ensures { OnOk result (text.new.items ≡ text.old.items ++ with_number word.now number) }
{
    let mut digits = Buffer::new();
    text.extend_from_slice(word.as_bytes())?;
    text.extend_from_slice(digits.format(number).as_bytes())?;
    Ok(())
}
