//! A JSON value over its text, and the memory that it takes.

use bumpalo::Bump;
use serde_json::Number;
use std::alloc::Global;

/// A JSON value. It owns nothing: its texts are parts of the text that was read, or of the scratch if they have
/// escapes, and its lists and members stand in the scratch's arena.
#[derive(Clone, Copy)]
pub enum Value<'a> {
    Null,
    Bool(bool),
    Number(Number),
    String(&'a str),
    Array(&'a [Value<'a>]),
    /// The members in the order of the text: a name may come twice, and the last one counts.
    Object(&'a [Member<'a>]),
}

/// A member of an object: its name, and what is at it.
pub type Member<'a> = (&'a str, Value<'a>);

/// The memory of a value that is read.
#[derive(Drop)]
pub struct Scratch {
    pub(crate) texts: json::Scratch,
    pub(crate) arena: Bump,
}

impl Scratch {
    /// No memory yet.
    pub fn new(alloc: Global) -> Scratch {
        Scratch {
            texts: json::Scratch::new(alloc),
            arena: Bump::new(alloc),
        }
    }
}
