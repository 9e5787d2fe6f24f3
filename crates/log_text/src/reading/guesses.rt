//! Which thing a name mostly is of, guessed by its bytes.

use sleep_base::Mem;
use sleep_model::Name;
use std::alloc::Global;

/// The number of no thing.
const NOTHING: u32 = u32::MAX;

/// The numbers of things, at places that their names' bytes say. Whoever asks compares the name of the thing,
/// since two names may have one place.
#[derive(Drop)]
pub struct NameGuesses {
    numbers: Vec<u32>,
}

/// A number made of a text's bytes before that one, or of all. Names that end in the numbers of a row have the
/// numbers of a row, so that few of them share a place.
#[inline(always)]
fn mixed(text: &[u8], end: u8) -> usize {
    let mut mixed = 0_usize;
    for byte in text {
        if *byte == end {
            break;
        }
        mixed = mixed.wrapping_mul(10).wrapping_add(usize::from(*byte));
    }
    mixed
}

/// The place among that many of the name that a text begins with.
#[inline(always)]
fn place_of(text: &[u8], end: u8, count: usize) -> usize {
    if count == 0 {
        return 0;
    }
    mixed(text, end) % count
}

impl NameGuesses {
    ghost use Rattle.std.specs.Prelude.{◌<◌, ◌^◌, length};

    /// The numbers of the things of these names. `Mem` if there is no memory for them.
    pub fn of(alloc: Global, names: &[Name]) -> Result<Self, Mem>
        requires { length names.now < 2 ^ 32 }
    {
        let count = names.len().saturating_mul(2).saturating_add(1);
        let mut numbers = vec![in alloc; NOTHING; count]?;
        for i in 0..names.len() {
            let place = place_of(names[i].bytes(), b' ', numbers.len());
            if place < numbers.len() {
                numbers[place] = i as u32;
            }
        }
        Ok(NameGuesses { numbers })
    }

    /// The number of the last thing whose name has the place of the name before that byte. That of no thing if
    /// there is none.
    #[inline(always)]
    pub fn guess(&self, text: &[u8], end: u8) -> u32 {
        match self.numbers.get(place_of(text, end, self.numbers.len())) {
            Some(number) => *number,
            None => NOTHING,
        }
    }
}
