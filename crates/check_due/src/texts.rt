//! Texts that are written to the files of sleep (`kernel/power/main.c`).

ghost use Rattle.std.specs.Prelude.{◌≡◌};
ghost use Rattle.sleep_model.specs.Tasks.{first_line, is_mem, is_off};

/// The text up to its first newline.
fn first_line(text: &[u8]) -> &[u8]
    ensures { result.now ≡ first_line text.now }
{
    for (at, byte) in text.iter().enumerate() {
        if *byte == b'\n' {
            return &text[..at];
        }
    }
    text
}

/// Whether the state `mem` is written (`decode_state`).
pub fn is_mem(text: &[u8]) -> bool
    ensures { result ≡ is_mem text.now }
{
    first_line(text) == b"mem".as_slice()
}

/// Whether `off` is written, with or without a newline (`autosleep_store`).
pub fn is_off(text: &[u8]) -> bool
    ensures { result ≡ is_off text.now }
{
    text == b"off".as_slice() || text == b"off\n".as_slice()
}
