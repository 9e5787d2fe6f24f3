//! The state of each device in the three pairs of phases (`drivers/base/power/main.c`), with cursors in the
//! devices' order and counts of what each device waits for. Its tests are in `part_cases`.
//!
//! Promises: After an entry each device is in the state that `phase_states_after` says. Each question is its
//! search over the order, or over what is right below or above. A change of links leaves the board of the
//! changed links; a refused change changes nothing. By the clauses of `Board::wired`, `note`, `add_link`,
//! `set_link`, `next_down`, `waits_for_subordinates` and the others.
//!
//! Begin reading in `specs/Boards.antt`, `src/board.rt`, `src/moves.rt`.
#![tactic(auto)]

mod board;
mod counts;
mod cursors;
mod law;
mod moves;
mod phase_state;
mod pick;
mod rows;
mod walk;

pub use board::Board;
pub use law::board_agrees;
pub use phase_state::{
    is_direct_complete, is_down_in, is_not_down, is_not_up, is_prepared, is_ready, is_taken,
};
