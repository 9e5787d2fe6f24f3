//! From a log to its text.

pub(crate) mod body;
pub(crate) mod gathered;
pub(crate) mod line;
pub(crate) mod log;
pub(crate) mod put;
pub(crate) mod ready;
pub(crate) mod referred;
pub(crate) mod stream;
pub(crate) mod writer;
