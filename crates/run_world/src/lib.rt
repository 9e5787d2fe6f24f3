//! The world that the workers of a run share (own: Linux shares its variables without such objects): the
//! machine and each wakeup source. Each is under a lock of its own, so that a report on a source waits for no
//! turn of the machine. A call takes one lock, and its pass knows what it made there. What a worker does in
//! this world is a task: the job of an actor, or the timer of a source. What its acts and a whole burst come
//! to is defined here. Its tests are rows of `row_trials`.
//!
//! Promises: A report adds only to its source, and a turn only to the machine's journal. A call that answers
//! a stamp has added just its entries, at the end of its object's list, and its pass made just these, each
//! with those before it. The call is one that the source between calls makes, an expiry only after its moment
//! has come. The turn is due at a word no older than what the actor and the journal knew, of an actor that
//! has made all its calls on sources. Any other answer adds nothing, and says by which history or journal it
//! came, which has all that the pass itself made: None comes only of an expiry whose moment has not come. A
//! full source has fewer than four places left, and out of memory comes only if it has four. A turn waits for
//! numbers exactly if its own are not the machine's, and is answered these. Out of memory comes to no maker
//! of an open attempt and to no device. At the close the machine and the sources come back in their order.
//! Each has gained just what the passes made of it, at its index, and has its seat. A task wants next what
//! its job wants, or its timer's expiry, and knows what its actor last knew. What an act, a chain of acts and
//! a whole burst are is defined here (`Does`, `Plays`, `IsBurst`). By the clauses of `World::report`,
//! `World::core_turn`: `made`, `pass`, `same`; `world_objects`; `close_world`; `Task::next`, `floor`.
//!
//! Begin reading in `src/world.rt`, `src/object.rt`, `src/task.rt`; `specs/Objects.antt`,
//! `specs/Outcomes.antt`, `specs/Acts.antt`, `specs/Bursts.antt`.
#![tactic(auto)]

mod boxed;
mod closing;
mod gate;
mod note;
mod object;
mod opening;
mod task;
mod timed;
mod world;

pub use boxed::BoxedCore;
pub use closing::close_world;
pub use gate::{Gate, OpenGate};
pub use note::WorldNote;
pub use object::WorldObject;
pub use opening::world_objects;
pub use task::Task;
pub use timed::TimedSource;
pub use world::{Reply, SharedWorld, World, WorldPass};
