//! A pass and the list of what it made, as a test's loop invariant needs them.
ghost use Rattle.std.specs.Prelude.{◌≡◌, ◌<◌, ◌++◌, [], length, drop};
ghost use Rattle.turn_lock.specs.Bookings.{placed};
ghost use Rattle.turn_lock.specs.Passes.{IsPass, Holds, first_of, had_by, made_of, number_of};

use crate::lock_tests::NumberList;
use std::alloc::Global;
use std::sync::Wait;
use turn_lock::{Held, Made, Pass, SharedLocks, give, take};

/// A pass that holds nothing, with its list.
#[derive(Drop)]
pub(crate) struct PassHolder {
    pub pass: Pass<NumberList>,
    pub made: Vec<Made<u32>>,
    ghost listed: { made_of pass.token ≡ made.items },
}

/// A pass that holds an object, with its list as it will be once the object is back.
#[derive(Drop)]
pub(crate) struct Busy {
    pub held: Held<NumberList>,
    pub object: usize,
    pub made: Vec<Made<u32>>,
    ghost same: { held.object ≡ object },
    ghost grown: { had_by held.token ++ drop (length (had_by held.token)) held.value.notes.items ≡ held.value.notes.items },
    ghost listed: { made.items ≡ made_of held.token ++ placed object (length (had_by held.token)) (drop (length (had_by held.token)) held.value.notes.items) },
}

impl PassHolder {
    /// A pass that made nothing yet.
    pub(crate) fn new(alloc: Global, pass: Pass<NumberList>) -> PassHolder
        requires { made_of pass.token ≡ [] }
        ensures { result.pass ≡ pass }
    {
        PassHolder {
            pass,
            made: Vec::new(alloc),
        }
    }

    /// Takes an object.
    pub(crate) fn take<R: Wait>(
        self,
        rt: &R,
        cells: &SharedLocks<NumberList, u32>,
        object: usize,
    ) -> Busy
        requires pass { IsPass cells.now.shared.table_id (first_of self.pass.token) self.pass.token }
        requires object { object < length (first_of self.pass.token) }
        ensures held { Holds cells.now.shared.table_id (first_of self.pass.token) object result.held.token }
        ensures object { result.object ≡ object }
        ensures number { number_of result.held.token ≡ number_of self.pass.token }
    {
        let PassHolder { pass, made } = self;
        let held = take(cells, rt, pass, object);
        Busy { held, object, made }
    }
}

impl Busy {
    /// Adds a number at the end of the object's list, if there is memory.
    #[tactic(auto, using(turn_lock::proofs::Listed::grown_more, turn_lock::proofs::Listed::listed_more))]
    pub(crate) fn note(self, x: u32) -> Busy
        ensures { (result.held.token ≡ self.held.token) × (result.object ≡ self.object) }
    {
        let Busy {
            mut held,
            object,
            mut made,
        } = self;
        let place = held.value().notes.len();
        if made.reserve(1).is_err() {
            return Busy { held, object, made };
        }
        if !held.value().note(x) {
            return Busy { held, object, made };
        }
        made.push_reserved(Made {
            object: object as u64,
            place: place as u64,
            entry: x,
        });
        Busy { held, object, made }
    }

    /// Gives the object back.
    pub(crate) fn give(self, cells: &SharedLocks<NumberList, u32>) -> PassHolder
        requires held { Holds cells.now.shared.table_id (first_of self.held.token) self.object self.held.token }
        ensures pass { IsPass cells.now.shared.table_id (first_of self.held.token) result.pass.token }
        ensures number { number_of result.pass.token ≡ number_of self.held.token }
    {
        let Busy { held, made, .. } = self;
        let pass = give(cells, held);
        PassHolder { pass, made }
    }
}
