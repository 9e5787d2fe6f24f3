//! JSON values over the text that they are read from: what `serde_json` reads of a text, with nothing of it
//! copied.
//!
//! The items of a list, and the members of an object in the order of the text, stand in an arena. What a value
//! says is told in the words of `serde_json`: the same texts are refused, of equal members the last one
//! counts, and a number is an integer of 64 bits or else a float. Its tests are in `part_cases`.
//!
//! Promises: Bytes are read exactly if they are UTF-8 and `serde_json` reads a value of them. The value
//! answers each question as that one does. By the clauses of `read_value`: `read`, `none`; `get`, `as_str`,
//! `as_bool`, `as_u64`, `as_i64`, `as_array`, `as_object`. Tests of a value, and of what stands at a name, say
//! what the definitions of `specs/Look.antt` say.
//!
//! Begin reading in `src/tree.rt`, `src/build.rt`, `src/look.rt`, `src/members.rt`.
#![tactic(auto)]

mod build;
mod look;
mod members;
mod numbers;
mod read;
mod tree;

pub use look::{as_array, as_bool, as_i64, as_object, as_str, as_u64, get};
pub use members::{
    has_number, has_only, has_text, is_number, is_one_of, is_same, is_string, is_text, is_within,
    list_in, may_be_bounded, may_be_list, may_be_one_of, may_be_text, may_be_truth, may_be_within,
    must_be_one_of, must_be_text, must_be_within, number_at, text_at, text_of, truth_at, word_at,
};
pub use read::read_value;
pub use tree::{Member, Scratch, Value};
