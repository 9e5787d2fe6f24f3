//! From the lines of a log to the log.

pub(crate) mod attempts;
pub(crate) mod cut;
pub(crate) mod devices;
pub(crate) mod ends;
pub(crate) mod entries;
pub(crate) mod guesses;
pub(crate) mod index;
pub(crate) mod kinds;
pub(crate) mod last_named;
pub(crate) mod lines;
pub(crate) mod machine_names;
pub(crate) mod meaning;
pub(crate) mod names;
pub(crate) mod number;
pub(crate) mod pieces;
pub(crate) mod quick;
pub(crate) mod quick_actors;
pub(crate) mod quick_sources;
pub(crate) mod read;
pub(crate) mod reader;
pub(crate) mod same;
pub(crate) mod steps;
