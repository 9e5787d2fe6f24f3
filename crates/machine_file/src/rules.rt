//! The first rule that a file breaks, and the links of a file, added in turn.
pub(crate) mod cycles;
pub(crate) mod first;
