//! Links between devices, the order that they leave, and what depends on a device and what it depends on
//! (`drivers/base/core.c`, `device_link_add`). Its tests are in `part_cases`.
//!
//! Promises: The order is what its definition says, whatever becomes of a link's state. A dormant link is in
//! neither `below` nor `above`. Each refusal comes exactly if it should, a cycle with its path; a refusal
//! changes nothing, nor does out of memory, which may come in place of a cycle. Setting a state takes no
//! memory, nor does the question whether a device depends on another among at most 1,024. The links of a
//! whole list are made exactly if adding them in turn would refuse none, and are then the same. By the
//! clauses of `Links::add`, `add_as`, `set_active`, `order`, `below`, `above`, `is_linked`, `is_dependent`,
//! `add_noting_order`; `with_links`.
//!
//! Begin reading in `src/links.rt`, `src/walk.rt`, `src/states.rt`.
#![tactic(auto)]

mod at_once;
mod depends;
mod fault;
mod first;
mod links;
mod numbers;
mod room;
mod seen;
mod states;
mod tables;
mod visits;
mod walk;

pub use depends::MOST_SEARCHED;
pub use fault::{DevList, LinkFault};
pub use links::Links;
