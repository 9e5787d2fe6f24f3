//! The rules of a log, each by itself, and the law that they are what is due. No function here has code.
//! `law_trials` tries each rule on worked logs.
//!
//! Promises: After a legal journal an entry is due of its maker exactly if it keeps every rule. A list of
//! entries is legal exactly if each of its entries keeps every rule. A log has at most one first bad line,
//! and a good log has none. By the clauses of `entries_keep_rules`, `legal_entries_keep_rules`,
//! `legal_lists_keep_rules`, `good_logs_have_no_bad_line`, `first_bad_line_is_one`.
//!
//! Begin reading in `rule_definitions/specs/Entry.antt`; `proofs/Legal.antt`.
#![tactic(auto)]

mod law;

pub use law::{
    devices_keep_rules, entries_keep_rules, first_bad_line_is_one, good_logs_have_no_bad_line,
    legal_entries_keep_rules, legal_lists_keep_rules, makers_keep_rules, owed_follows,
    scripts_keep_rules, work_keeps_rules,
};
