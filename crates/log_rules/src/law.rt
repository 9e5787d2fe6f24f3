//! The law: an entry is legal, and one of the journal due of its actor, exactly if it keeps all rules.

ghost use Rattle.rule_definitions.specs.Entry.{OneForEntries, OneForLists};
ghost use Rattle.rule_definitions.specs.Verdict.{FirstBadIsOne, GoodHasNone};
ghost use Rattle.rule_definitions.specs.Law.{OneForAll, OneForDevices, OneForMakers, OneForScripts, OneForWork, OwedFollows};

/// Outside attempts of its own a script makes an entry that is due of it exactly if that entry keeps all
/// rules: reads, saves and writes to the state and to autosleep, sleeps, marks, runtime requests and links,
/// freezing, and the exit after the last operation (`kernel/power/main.c`, `kernel/power/process.c`).
#[tactic(auto, using(crate::proofs::Scripts::scripts))]
pub fn scripts_keep_rules()
    ensures { OneForScripts }
{}

/// Outside attempts of its own autosleep's work makes an entry that is due of it exactly if that entry
/// keeps all rules (`kernel/power/autosleep.c`, `try_to_suspend`).
#[tactic(auto, using(crate::proofs::Work::the_work))]
pub fn work_keeps_rules()
    ensures { OneForWork }
{}

/// An asynchronous device makes an entry that is due of it exactly if that entry keeps all rules
/// (`drivers/base/power/main.c`, `async_suspend`, `async_resume`).
#[tactic(auto, using(crate::proofs::Devices::the_devices))]
pub fn devices_keep_rules()
    ensures { OneForDevices }
{}

/// Who makes the open attempt makes an entry that is due exactly if that entry keeps all rules. So it is at
/// each row of the attempt's table, on the way down and on the way up (`kernel/power/suspend.c`,
/// `enter_state`, `suspend_devices_and_enter`, `suspend_enter`; `drivers/base/power/main.c`).
#[tactic(auto, using(crate::proofs::Makers::the_makers))]
pub fn makers_keep_rules()
    ensures { OneForMakers }
{}

/// For every machine, word and actor: after every legal journal an entry of the journal that is due
/// keeps all rules, and after any list of entries one that keeps all rules is due. So the rules, each by
/// itself, and what is due are one thing written twice.
#[tactic(auto, using(crate::proofs::Makers::all))]
pub fn entries_keep_rules()
    ensures { OneForAll }
{}

/// After every legal journal an entry that keeps all rules but two keeps those two as well: it undoes only
/// what is owed, and ends an attempt only if nothing is owed (`kernel/power/suspend.c`,
/// `suspend_devices_and_enter`, `suspend_finish`).
#[tactic(auto, using(crate::proofs::Makers::owed_follows))]
pub fn owed_follows()
    ensures { OwedFollows }
{}

/// After every legal list of entries, of whatever machine, one more entry is legal exactly if it keeps
/// each rule: an entry of the journal, a call on a wakeup source and each of its steps on the word, and a
/// jump of time (`kernel/power/suspend.c`, `kernel/power/main.c`, `drivers/base/power/main.c`,
/// `drivers/base/power/wakeup.c`).
#[tactic(auto, using(crate::proofs::Legal::entries))]
pub fn legal_entries_keep_rules()
    ensures { OneForEntries }
{}

/// Every list of entries, of whatever machine, is legal exactly if each of its entries keeps each rule after
/// those before it.
#[tactic(auto, using(crate::proofs::Legal::lists))]
pub fn legal_lists_keep_rules()
    ensures { OneForLists }
{}

/// A log that is legal and finished has no bad line.
#[tactic(auto, using(crate::proofs::Judging::none_of_good))]
pub fn good_logs_have_no_bad_line()
    ensures { GoodHasNone }
{}

/// A log has one first bad line at most, and one number for it: the least of the rules that are broken there.
#[tactic(auto, using(crate::proofs::Judging::first_bad_is_one))]
pub fn first_bad_line_is_one()
    ensures { FirstBadIsOne }
{}
