//! The rules of a machine file: the definitions of the bytes that are accepted and of the machine that they
//! spell, and the tests of a file's value by these rules. `machine_file` adds the links, and so finds a
//! cycle. Its tests are rows of `row_trials`.
//!
//! Promises: Of each group of rules the first that a file breaks is named, with its first place. The names of
//! a file's things are known by kind, or the first broken rule on devices is named. A link and an answer pass
//! a test, and a word is found, as the definitions say. By the clauses of `form_broken`, `head_broken`,
//! `end_broken`, `thing_broken`, `operation_broken`, `reply_broken`, `last_broken`; `known_of_file`;
//! `has_link_members`, `is_valid_answer`, `word_of`.
//!
//! Begin reading in `specs/Whole.antt`; `src/rules.rt`.
#![tactic(auto)]

mod names;
mod rules;
mod value;

pub use names::devices::{NamedDevices, device_named};
pub use names::known::{Known, index_of_name, known_of_file};
pub use names::name_of_text;
pub use rules::answers::{is_of_device, is_valid_answer};
pub use rules::form::{DAY, has_link_members, link_states, statuses};
pub use rules::items::{is_second, spells_name};
pub use rules::limits::MOST_STEPS;
pub use rules::operations::{
    MOST_TIMES, Word, has_members, has_short_text, is_allowed, is_of_version, word_of,
};
pub use rules::pairs::{EndNumbers, LinkEnds, ends_in, numbers_in, repeated_link};
pub use rules::{
    Broken, end_broken, form_broken, head_broken, last_broken, operation_broken, reply_broken,
    thing_broken,
};
pub use value::place::{Member, Place, items};
pub use value::tree::tree_of;
pub use value::words::{
    AWAKE, DEVICE, EVENT, NOTIFIER, PLATFORM, RELAX, SYSCORE, error_in, kind_in, phase_in, step_in,
};
