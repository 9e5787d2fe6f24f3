//! The names of things: 1 to 32 bytes.
ghost use Rattle.std.specs.Prelude.{◌≡◌};
ghost use Rattle.std.specs.List.{list_all};
ghost use Rattle.sleep_model.specs.NameBytes.{is_name, is_name_byte};

use std::marker::Model;

/// The most bytes that a name has.
pub const NAME_BYTES: usize = 32;

/// The name of autosleep's own source (`kernel/power/autosleep.c`, `pm_autosleep_init`).
pub const AUTOSLEEP: &str = "autosleep";

/// Whether a name may have that byte: `a` to `z`, `0` to `9`, `_`, `.` or `-`.
fn is_name_byte(byte: u8) -> bool
    ensures { result ≡ is_name_byte byte }
{
    matches!(byte, b'a'..=b'z' | b'0'..=b'9' | b'_' | b'.' | b'-')
}

/// Whether names may have each of these bytes.
pub fn are_name_bytes(bytes: &[u8]) -> bool
    ensures { result ≡ list_all is_name_byte bytes.now }
{
    bytes.iter().all(|byte| is_name_byte(*byte))
}

/// Whether machine files and writes to `wake_lock` may spell a name so: 1 to 32 such bytes.
pub fn is_name(bytes: &[u8]) -> bool
    ensures { result ≡ is_name bytes.now }
{
    1 <= bytes.len() && bytes.len() <= NAME_BYTES && are_name_bytes(bytes)
}

/// The name of a thing: 1 to 32 bytes, stored in the value, that contracts see as their list.
#[derive(Clone, Copy, Debug, PartialEq, Eq, PartialOrd, Ord, Hash)]
pub struct Name {
    bytes: [u8; 32],
    len: u8,
}

impl Model for Name {
    ghost use Rattle.std.specs.Prelude.{ℕ, List, length, take, ◌-◌, ◌++◌, replicate};
    ghost use Rattle.sleep_model.specs.NameBytes.{IsPadded};

    ghost Value = { List ℕ };

    ghost view = { λ n. take n.len n.bytes };

    ghost invariant = { λ n. IsPadded n.bytes n.len };

    ghost inverse = { λ d. record { bytes = d ++ replicate (32 - length d) 0; len = length d } };
}

impl Name {
    ghost use Rattle.std.specs.Prelude.{◌≡◌, ◌<◌, ◌≤◌, ℕ, codes, length, IfSome, IfNone};

    /// The name that these bytes spell. None exactly if they are no byte at all, or more than 32.
    pub fn of_bytes(bytes: &[u8]) -> Option<Name>
        ensures name { IfSome result (λ n. n ≡ bytes.now) }
        ensures fits { IfSome result (λ _. (0 < length bytes.now) × (length bytes.now ≤ 32)) }
        ensures none { IfNone result ((0 < length bytes.now) → (length bytes.now ≤ 32) → ⊥) }
    {
        if bytes.is_empty() || bytes.len() > NAME_BYTES {
            return None;
        }
        let mut padded = [0; 32];
        padded[..bytes.len()].copy_from_slice(bytes);
        Some(Name {
            bytes: padded,
            len: bytes.len() as u8,
        })
    }

    /// The name of autosleep's own source.
    pub fn autosleep() -> Name
        ensures { result ≡ codes "autosleep" }
    {
        match Name::of_bytes(AUTOSLEEP.as_bytes()) {
            Some(name) => name,
            None => unreachable!(),
        }
    }

    /// The name's bytes.
    pub fn bytes(&self) -> &[u8]
        ensures { result.now ≡ self.now }
    {
        &self.bytes[..self.len as usize]
    }
}
