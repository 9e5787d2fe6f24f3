//! A wakeup source in a burst.

ghost use Rattle.std.specs.Prelude.{◌≡◌, ◌≤◌, ◌^◌, false};
ghost use Rattle.std.specs.Bool.{OnFalse, OnTrue};
ghost use Rattle.sleep_model.specs.declared.machine.SourceCall.TheVariants as calls;
ghost use Rattle.sleep_model.specs.Sources.{expiry, has_expired};
ghost use Rattle.wakeup_source.specs.SourceStates.{IsSettled, unstamped_source, latest};
ghost use Rattle.wakeup_source.specs.Shown.{MayCall};
ghost use Rattle.run_laws.specs.Seated.{IsFresh};
ghost use Rattle.run_world.specs.Calling.{AfterCall};

use event_word::EventTable;
use run_objects::SeatedSource;
use sleep_model::{SourceCall, Stamp};
use std::sync::Wait;
use wakeup_source::{CallBy, SourceFault};

/// A wakeup source under its lock in a burst (`struct wakeup_source`): time does not pass in a burst, and no
/// entry of the source is later than its moment.
#[derive(Drop)]
pub struct TimedSource {
    source: SeatedSource,
    moment: u64,
    ghost timely: { latest (unstamped_source source.source.past) ≤ moment },
    ghost small: { moment ≤ 2 ^ 63 },
}

/// Whether a call may be made on the source: an expiry only once its moment has come.
fn may_make(source: &SeatedSource, call: SourceCall, now: u64) -> bool
    ensures may { OnTrue result (MayCall call (unstamped_source source.now.source.past) now) }
    ensures waits { OnFalse result ((call ≡ calls.Expire)
        × (has_expired (expiry (unstamped_source source.now.source.past)) now ≡ false)) }
    ensures settled { IsSettled source.now.source }
    ensures fresh { IsFresh source.now.source }
{
    let due = source.source().due();
    match call {
        SourceCall::Expire => match due {
            Some(at) => at <= now,
            None => false,
        },
        _ => true,
    }
}

impl TimedSource {
    /// The source, for a burst at that moment in ms.
    pub fn new(source: SeatedSource, moment: u64) -> Self
        requires timely { latest (unstamped_source source.source.past) ≤ moment }
        requires small { moment ≤ 2 ^ 63 }
        ensures { (result.source ≡ source) × (result.moment ≡ moment) }
    {
        TimedSource { source, moment }
    }

    /// The source, when the burst is over.
    pub fn into_source(self) -> SeatedSource
        ensures { result ≡ self.source }
    {
        self.source
    }

    /// A whole call; an expiry is not made if its moment has not come.
    pub(crate) fn report<R: Wait>(
        &mut self,
        rt: &R,
        table: &EventTable,
        by: CallBy,
        call: SourceCall,
    ) -> Result<Option<Stamp>, SourceFault>
        requires table { self.old.source.seat.table_id ≡ table.now.cells.shared.table_id }
        requires now { by.now ≡ self.old.moment }
        ensures after { AfterCall by call self.old.source self.new.source result }
        ensures table { self.new.source.seat.table_id ≡ self.old.source.seat.table_id }
        ensures number { self.new.source.source.id ≡ self.old.source.source.id }
        ensures moment { self.new.moment ≡ self.old.moment }
    {
        if !may_make(&self.source, call, by.now) {
            return Ok(None);
        }
        match self.source.call(rt, table, by, call) {
            Ok(stamp) => Ok(Some(stamp)),
            Err(fault) => Err(fault),
        }
    }
}
