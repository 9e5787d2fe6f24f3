//! What threads may be given.

use run_objects::{SeatedCore, SeatedSource};
use sleep_core::Core;
use world_workers::Worker;

/// Only of a type whose values may be sent to a thread.
fn is_sent<T: Send>() -> bool {
    true
}

/// A thread may take over the core, the machine with its seat, a source with its seat, and a worker.
pub(crate) fn are_sent() -> bool {
    is_sent::<Core<'_>>()
        && is_sent::<SeatedCore<'_>>()
        && is_sent::<SeatedSource>()
        && is_sent::<Worker<'_>>()
}
