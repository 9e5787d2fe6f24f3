//! The law of the room of an attempt, over every legal journal. The room is reserved at the attempt's begin, so
//! that no entry of its maker, nor of the devices that it puts to sleep, is ever out of memory.

ghost use Rattle.room_laws.specs.AttemptRoom.{NoneNeededOutside, AttemptNeedsFew, OwnEntrySpends, DeviceEntrySpends, OthersNeedNothing};

/// If no attempt is open no room is needed.
#[tactic(auto, using(crate::proofs::Needing::none_needed_outside))]
pub fn none_needed_outside()
    ensures { NoneNeededOutside }
{}

/// An attempt with its first entry, and all that it may need after it, fit in room for this many entries: 40,
/// 20 more a device, and 2 more a notifier, a syscore operation and a processor (`kernel/power/suspend.c`,
/// `enter_state`).
#[tactic(auto, using(crate::proofs::Needing::attempt_needs_few))]
pub fn attempt_needs_few()
    ensures { AttemptNeedsFew }
{}

/// Each entry of the open attempt's maker makes what is needed fall by one at least, if the machine is one
/// that a file may spell. So what is needed is room enough for all of them (`kernel/power/suspend.c`,
/// `suspend_devices_and_enter`).
#[tactic(auto, using(crate::proofs::Needing::own_entry_spends))]
pub fn own_entry_spends()
    ensures { OwnEntrySpends }
{}

/// Each entry that an asynchronous device makes of its own makes what is needed fall by one at least
/// (`drivers/base/power/main.c`, `async_suspend`, `async_resume`).
#[tactic(auto, using(crate::proofs::Needing::device_entry_spends))]
pub fn device_entry_spends()
    ensures { DeviceEntrySpends }
{}

/// An entry of any other task, of the autosleep work or of time, which begins no attempt, leaves what
/// is needed as it was.
#[tactic(auto, using(crate::proofs::Needing::others_need_nothing))]
pub fn others_need_nothing()
    ensures { OthersNeedNothing }
{}
