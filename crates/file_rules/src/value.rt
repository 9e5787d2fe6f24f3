//! What a JSON value says, by its place in a file.

pub(crate) mod place;
pub(crate) mod tree;
pub(crate) mod words;
