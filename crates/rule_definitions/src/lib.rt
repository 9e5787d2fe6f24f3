//! The rules of a log, each by itself: only definitions, in `specs/`. The checker of logs decides them
//! (`check_rules`), a law says that they agree with what is legal (`log_rules`), and `law_trials` keeps and
//! breaks each. The crate has no function.
//!
//! Begin reading in `specs/Lib.antt`, `specs/Entry.antt`.
#![tactic(auto)]
