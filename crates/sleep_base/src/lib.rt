//! What every crate uses and is not about sleep: bytes in and out with counted faults, out of memory, the
//! kernel's error numbers, decimal digits, and a wait for ever. Its tests are in `part_cases` and
//! `row_trials`.
//!
//! Promises: Each error has its number and its name, and no other text names it. A whole read took all
//! bytes up to the end, or says why not. A whole write wrote all bytes, or a prefix of them and the sink
//! counted a fault. Bytes are digits exactly if each is. Who goes on after a wait for a condition knows
//! that it holds. By the clauses of `Errno::number`, `name`, `of_name`, `of_bytes`, `of_answer`;
//! `read_all`, `write_all`; `MemSource`, `MemSink`; `are_digits`; `wait_unless`.
//!
//! Begin reading in `src/outside.rt`, `src/errno.rt`.
#![tactic(auto)]

mod cutting;
mod digits;
mod errno;
mod memory;
mod outside;
mod standard;
mod wait;
mod whole;

pub use cutting::cut;
pub use digits::are_digits;
pub use errno::Errno;
pub use memory::{MemSink, MemSource};
pub use outside::{ByteSink, ByteSource, Failed, Mem, drop_for_mem};
pub use standard::{StdSink, StdSource, Stream};
pub use wait::wait_unless;
pub use whole::{ReadStop, read_all, write_all};
