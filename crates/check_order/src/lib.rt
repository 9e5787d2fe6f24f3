//! The order of devices, and what is right below and above each, as the checker of logs makes them out: by
//! plain walks over parents and links, anew after a link was added. A state that changes leaves the order;
//! one that is set anew changes nothing. Its tests are in `row_trials`, by the command `check`.
//!
//! Promises: The order of devices is the one that the links leave, dormant ones too; what is right below and
//! above each device by the active links is listed as the definitions list it; whether a device depends on
//! another by children and all links. The same of the devices after a link was added, or its state was set.
//! By the clauses of `DeviceGraph::new`, `order`, `below`, `above`, `is_linked`, `is_dependent`, `add_link`,
//! `set_state`.
//!
//! Begin reading in `src/graph.rt`, `src/walk.rt`; `specs/Visited.antt`, `specs/Graphs.antt`.
#![tactic(auto)]

mod graph;
mod links;
mod order;
mod shown;
mod tables;
mod walk;

pub use graph::DeviceGraph;
