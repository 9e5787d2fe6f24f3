//! Devices by name: `tree`, and requests for a runtime status: `requests`.

use crate::asked::{Words, cut, number_of};
use crate::parts::{CaseRunner, answer_lines};
use crate::reply::{CaseReply, Out, ReplyWord};
use device_tree::{Tree, request};
use sleep_model::{Device, DeviceFlags, Name, Runtime};
use std::alloc::Global;

/// A call on a tree of devices, by a name or by a number.
#[derive(Clone, Copy)]
enum TreeCall {
    Register,
    Find,
    Children,
    Parent,
    Len,
}

/// The verb of each call.
const TREE_CALLS: [(&str, TreeCall); 5] = [
    ("register", TreeCall::Register),
    ("find", TreeCall::Find),
    ("children", TreeCall::Children),
    ("parent", TreeCall::Parent),
    ("len", TreeCall::Len),
];

/// The number of a device of that name and parent after it is registered, or why it is not.
fn registered_word(tree: &mut Tree, name: Name, parent: &str) -> ReplyWord {
    let registered = tree.register(Device {
        name,
        parent: parent.parse::<u32>().ok(),
        flags: DeviceFlags::ASYNC,
    });
    match registered {
        Ok(device) => ReplyWord::Number(device),
        Err(fault) => ReplyWord::TreeFault(fault),
    }
}

/// The answer of a call with a name.
fn named_word(tree: &mut Tree, call: TreeCall, text: &str) -> ReplyWord {
    let (name, parent) = cut(text, ' ');
    match (Name::of_bytes(name.as_bytes()), call) {
        (Some(name), TreeCall::Register) => registered_word(tree, name, parent),
        (Some(name), _) => ReplyWord::Maybe(tree.find(&name)),
        (None, _) => ReplyWord::Nothing,
    }
}

impl CaseRunner<TreeCall> for Tree {
    /// Answers a call on the tree.
    fn answer(&mut self, call: TreeCall, rest: &str, out: &mut Out) -> CaseReply {
        CaseReply::One(match call {
            TreeCall::Register | TreeCall::Find => named_word(self, call, rest),
            TreeCall::Children => return out.list(self.children(number_of(rest))),
            TreeCall::Parent => ReplyWord::Maybe(self.parent(number_of(rest))),
            TreeCall::Len => ReplyWord::Number(self.len()),
        })
    }
}

/// Answers the lines of a tree, and says how many devices it has then.
pub fn trees(alloc: Global, lines: &str, out: &mut Out) {
    let mut tree = Tree::new(alloc);
    answer_lines(&mut tree, &TREE_CALLS, lines, out);
    let devices = tree.into_devices();
    out.say(CaseReply::One(ReplyWord::Size(devices.len())));
}

/// The answer to a request, and the state of the device then: suspended or not, prepared or not, its runtime
/// PM disabled by direct-complete and by late or not.
fn requested(words: Words) -> CaseReply {
    let to_suspended = words.flag(3);
    let mut kept = Runtime {
        suspended: !to_suspended,
        prepared: words.flag(0),
        off_direct: words.flag(1),
        off_late: words.flag(2),
    };
    let given = request(&mut kept, to_suspended);
    CaseReply::Five(
        ReplyWord::Error(given.err()),
        ReplyWord::Flag(kept.suspended),
        ReplyWord::Flag(kept.prepared),
        ReplyWord::Flag(kept.off_direct),
        ReplyWord::Flag(kept.off_late),
    )
}

/// Answers requests.
pub fn requests(lines: &str, out: &mut Out) {
    for line in lines.split('\n') {
        out.say(requested(Words::of(line)));
    }
}
