//! The rows of links between devices: the children and the parent of each device, a row with one more number,
//! and whether a link is put into the rows of what is waited for (`drivers/base/power/main.c`,
//! `dpm_wait_for_subordinate`). `device_links` has those of a machine. Their tests are those of
//! `device_links`, in `part_cases`.
//!
//! Promises: A row with one more number, and the rows without links, are what they say. A link is left out of
//! what is waited for exactly if it is dormant, or between a parent and its child. By the clauses of
//! `children_of`, `parents_of`, `push_and_reserve`, `push_unless`, `is_left_out`.
//!
//! Begin reading in `src/rows.rt`, `specs/Rows.antt`.
#![tactic(auto)]

mod rows;

pub use rows::{
    children_of, dependents_of, is_left_out, is_parent, parents_of, push_and_reserve, push_unless,
    reserve_one, room_for,
};
