//! The tree of devices, in the order of their registration (`drivers/base/core.c`). The reader of machine
//! files registers devices by it, one at a time. Its tests are in `part_cases`.
//!
//! Promises: The tree is the registered list. Each refusal comes exactly if it should, in order, and changes
//! nothing. A request for a runtime status is answered by the rule. By the clauses of `Tree::register`,
//! `find`, `parent`, `children`, `devices`, `len`; `request`.
//!
//! Begin reading in `src/tree.rt`.
#![tactic(auto)]

mod fault;
mod requests;
mod tree;

pub use fault::TreeFault;
pub use requests::request;
pub use tree::Tree;
