//! Machines that a reader has to give: whether a machine is the one that its file spells.

use bitflags::Flags;
use sleep_model::{
    Answer, Device, Link, Machine, Name, Notifier, Op, Phase, Report, Script, SourceCall, Step,
    What,
};

/// Whether it is the machine that has something in each list, with the devices in that order.
pub fn is_whole(machine: &Machine, order: &[u32]) -> bool {
    are_numbers(machine)
        && are_devices(machine.devices.as_slice())
        && is_link(machine.links.as_slice(), order)
        && is_notifier(machine.notifiers.as_slice())
        && are_answers(machine.answers.as_slice())
        && are_operations(machine.actors.as_slice())
}

fn are_numbers(machine: &Machine) -> bool {
    machine.alarm_ms == 7 && machine.cpus == 4 && machine.auto_cycles == 3
}

fn is_device(device: &Device, parent: Option<u32>, flags: u8) -> bool {
    device.parent == parent && device.flags.bits() == flags
}

/// Whether these are the bus, the device on it, and the clock.
fn are_devices(devices: &[Device]) -> bool {
    match devices {
        [bus, usb, clk] => {
            is_device(bus, None, 0) && is_device(usb, Some(0), 5) && is_device(clk, None, 2)
        }
        _ => false,
    }
}

/// Links are read, and added in turn.
fn is_link(links: &[Link], order: &[u32]) -> bool {
    match links {
        [link] => { link.supplier == 2 && link.consumer == 1 && order == [0u32, 2, 1].as_slice() }
        _ => false,
    }
}

/// Whether it is the one notifier, of priority -5.
fn is_notifier(notifiers: &[Notifier]) -> bool {
    match notifiers {
        [notifier] => notifier.priority == -5,
        _ => false,
    }
}

/// What is answered for, in which attempt, and what.
fn is_answer(answer: &Answer, what: What, attempt: Option<u32>, ret: i32) -> bool {
    answer.what == what && answer.attempt == attempt && answer.ret == ret
}

/// Whether these are the two answers: of a late phase and of a syscore operation.
fn are_answers(answers: &[Answer]) -> bool {
    match answers {
        [late, core] => {
            is_answer(late, What::Device(1, Phase::Late), Some(2), -5)
                && is_answer(core, What::Syscore(1), None, -16)
        }
        _ => false,
    }
}

/// The steps of the only script.
fn steps_of(actors: &[Script]) -> &[Step] {
    match actors {
        [actor] => actor.steps.as_slice(),
        _ => &[],
    }
}

/// Whether the last three operations are an event, a request and a write to the state.
fn are_operations(actors: &[Script]) -> bool {
    match steps_of(actors) {
        [_, _, event, runtime, state] => {
            is_event(&event.op) && is_request(&runtime.op) && is_state(&state.op, false)
        }
        _ => false,
    }
}

/// Whether it is an event of source 0 that ends at once.
fn is_event(op: &Op) -> bool {
    matches!(
        op,
        Op::Event {
            source: 0,
            ms: 0,
            hard: false
        }
    )
}

/// Whether it is a request to suspend device 2.
fn is_request(op: &Op) -> bool {
    matches!(
        op,
        Op::Runtime {
            device: 2,
            to_suspended: true
        }
    )
}

fn is_state(op: &Op, wanted: bool) -> bool {
    matches!(op, Op::State { if_saved, .. } if *if_saved == wanted)
}

/// Whether it is the machine with a dormant link, whose script sets its state and adds another one.
pub fn are_changes(machine: &Machine) -> bool {
    is_dormant(machine.links.as_slice()) && change_links(machine.actors.as_slice())
}

/// Whether the one link is dormant.
fn is_dormant(links: &[Link]) -> bool {
    match links {
        [link] => !link.active,
        _ => false,
    }
}

/// Whether the operations set a link's state, and then add a link.
fn change_links(actors: &[Script]) -> bool {
    match steps_of(actors) {
        [state, added] => sets_link(&state.op) && adds_link(&added.op),
        _ => false,
    }
}

/// Whether it sets the state of the link between 1 and 0.
fn sets_link(op: &Op) -> bool {
    matches!(
        op,
        Op::LinkState {
            supplier: 1,
            consumer: 0,
            active: true
        }
    )
}

/// Whether it adds a link between 0 and 1.
fn adds_link(op: &Op) -> bool {
    matches!(
        op,
        Op::Link {
            supplier: 0,
            consumer: 1
        }
    )
}

/// Whether it is the machine with two writers that share marks, and a callback that reports.
pub fn is_shared(machine: &Machine) -> bool {
    are_marks(machine.marks.as_slice())
        && are_writers(machine.actors.as_slice())
        && have_reports(machine.answers.as_slice())
}

/// Marks are in the order of their first use.
fn are_marks(marks: &[Name]) -> bool {
    match marks {
        [first, second] => { first.bytes() == b"b".as_slice() && second.bytes() == b"a".as_slice() }
        _ => false,
    }
}

/// Each of two writers has its own script.
fn are_writers(actors: &[Script]) -> bool {
    match actors {
        [one, other] => waits(one.steps.as_slice()) && posts(other.steps.as_slice()),
        _ => false,
    }
}

/// Whether these are a wait for a mark, and three writes to the state.
fn waits(steps: &[Step]) -> bool {
    match steps {
        [wait, state] => {
            matches!(&wait.op, Op::Wait { mark: 0 })
                && is_state(&state.op, true)
                && state.times == 3
        }
        _ => false,
    }
}

/// Marks are named by their numbers.
fn posts(steps: &[Step]) -> bool {
    match steps {
        [autosleep, sleep, one, two] => {
            matches!(&autosleep.op, Op::Autosleep { .. })
                && matches!(&sleep.op, Op::Sleep { ms: 20 })
                && matches!(&one.op, Op::Post { mark: 1 })
                && matches!(&two.op, Op::Post { mark: 0 })
        }
        _ => false,
    }
}

/// Whether the one answer has the reports.
fn have_reports(answers: &[Answer]) -> bool {
    match answers {
        [answer] => are_reports(answer.reports.as_slice()),
        _ => false,
    }
}

/// Reports are read, in their order.
fn are_reports(reports: &[Report]) -> bool {
    match reports {
        [event, relax] => {
            event.source == 1
                && matches!(&event.call, SourceCall::Event { ms: 9, hard: true })
                && relax.source == 0
                && matches!(&relax.call, SourceCall::Relax)
        }
        _ => false,
    }
}
