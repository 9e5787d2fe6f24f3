//! Links between devices: `links PARENT ..` with the parent of each device, or `-`; and links that are made
//! at once, `at_once PARENT ..`.

ghost use Rattle.std.specs.Prelude.{◌<◌, IfOk, IfSome};
ghost use Rattle.sleep_model.specs.Order.{EachAfterParent};

use crate::asked::Words;
use crate::parts::CaseRunner;
use crate::reply::{CaseReply, Out, ReplyWord};
use crate::spelled::Said;
use device_links::{LinkFault, Links};
use sleep_base::Mem;
use sleep_model::Link;
use std::alloc::Global;

/// A call on links, or a question.
#[derive(Clone, Copy)]
pub enum LinkCall {
    Add,
    Try,
    Tell,
    Set,
    Depends,
    Order,
    Below,
    Above,
}

/// The verb of each call.
pub const LINK_CALLS: [(&str, LinkCall); 8] = [
    ("add", LinkCall::Add),
    ("try", LinkCall::Try),
    ("tell", LinkCall::Tell),
    ("set", LinkCall::Set),
    ("depends", LinkCall::Depends),
    ("order", LinkCall::Order),
    ("below", LinkCall::Below),
    ("above", LinkCall::Above),
];

/// A parent that is one of the devices so far, else none.
fn known(parent: Option<u32>, count: usize) -> Option<u32>
    ensures { IfSome result (λ p. p < count) }
{
    match parent {
        Some(parent) if (parent as usize) < count => Some(parent),
        _ => None,
    }
}

/// The parents of devices, which words give.
fn parents_in(alloc: Global, text: &str) -> Result<Vec<Option<u32>>, Mem>
    ensures { IfOk result (λ v. EachAfterParent 0 v.items) }
{
    let mut parents = Vec::new(alloc);
    for word in text.split(' ') {
        let parent = known(word.parse::<u32>().ok(), parents.len());
        parents.push(parent)?;
    }
    Ok(parents)
}

/// Says what a call was answered: 0, or why a link is refused; of a cycle its path, too.
fn say_done(done: Result<(), LinkFault>, out: &mut Out) -> CaseReply {
    match done {
        Ok(()) => out.line(b"0"),
        Err(LinkFault::Cycle(path)) => {
            out.put(b"cycle ");
            out.list(path.as_slice())
        }
        Err(LinkFault::NoDevice) => out.line(b"no device"),
        Err(LinkFault::NoLink) => out.line(b"no link"),
        Err(LinkFault::TooMany) => out.line(b"too many"),
        Err(LinkFault::Twice) => out.line(b"twice"),
        Err(LinkFault::Mem) => out.lack(),
    }
}

/// Whether a link is added, or would close a cycle whose path is not named.
fn tried_word(tried: Result<(), LinkFault>) -> ReplyWord {
    match tried {
        Ok(()) => ReplyWord::Number(0),
        Err(LinkFault::Cycle(_)) => ReplyWord::Said(Said::Cycle),
        Err(LinkFault::Twice) => ReplyWord::Said(Said::Twice),
        Err(_) => ReplyWord::Nothing,
    }
}

/// Whether a link that is added may have moved its consumer; `-` if it is refused.
fn told_word(told: Result<bool, LinkFault>) -> ReplyWord {
    match told {
        Ok(moves) => ReplyWord::Flag(moves),
        Err(_) => ReplyWord::Nothing,
    }
}

/// Whether a device depends on another; `-` of a machine that is too large for the question.
fn depends(links: &Links, consumer: u32, supplier: u32) -> ReplyWord {
    if links.order().len() > 1024 {
        return ReplyWord::Nothing;
    }
    ReplyWord::Flag(links.is_dependent(consumer, supplier))
}

impl CaseRunner<LinkCall> for Links {
    /// Answers a call on links.
    fn answer(&mut self, call: LinkCall, rest: &str, out: &mut Out) -> CaseReply {
        let words = Words::of(rest);
        let (first, second, flag) = (words.number(0), words.number(1), words.flag(2));
        let word = match call {
            LinkCall::Add => return say_done(self.add_as(first, second, flag), out),
            LinkCall::Set => return say_done(self.set_active(first, second, flag), out),
            LinkCall::Order => return out.list(self.order()),
            LinkCall::Below => return out.list(self.below(first)),
            LinkCall::Above => return out.list(self.above(first)),
            LinkCall::Try => tried_word(self.add(first, second)),
            LinkCall::Tell => told_word(self.add_noting_order(first, second, flag)),
            LinkCall::Depends => depends(self, first, second),
        };
        CaseReply::One(word)
    }
}

/// Links of devices with these parents, of which none is made yet.
pub fn unlinked(alloc: Global, text: &str) -> Result<Links, Mem> {
    let parents = parents_in(alloc, text)?;
    Links::new(alloc, &parents)
}

/// Links of devices with these parents, made at once; none if one of them is refused.
pub fn linked(alloc: Global, text: &str, list: &[Link]) -> Result<Option<Links>, Mem> {
    let parents = parents_in(alloc, text)?;
    Links::with_links(alloc, &parents, list)
}

/// Devices, by the words that give their parents, and the links that are to be made at once.
#[derive(Drop)]
pub struct AtOnce<'a> {
    pub alloc: Global,
    pub parents: &'a str,
    pub list: Vec<Link>,
}

/// A link that is to be made; the order that all leave; or only that they are made.
#[derive(Clone, Copy)]
pub enum AtOnceCall {
    Link,
    Order,
    Made,
}

/// The verb of each call.
pub const AT_ONCE_CALLS: [(&str, AtOnceCall); 3] = [
    ("link", AtOnceCall::Link),
    ("order", AtOnceCall::Order),
    ("made", AtOnceCall::Made),
];

/// An active link, from the numbers of its supplier and its consumer.
pub fn link_of(text: &str) -> Link {
    let words = Words::of(text);
    Link {
        supplier: words.number(0),
        consumer: words.number(1),
        active: true,
    }
}

/// Says the order that links leave, or only that they are made; none are made if one is refused.
fn say_made(made: Result<Option<Links>, Mem>, in_order: bool, out: &mut Out) -> CaseReply {
    match made {
        Ok(Some(links)) => {
            if in_order {
                out.list(links.order())
            } else {
                out.line(b"made")
            }
        }
        Ok(None) => out.line(b"refused"),
        Err(_) => out.lack(),
    }
}

impl CaseRunner<AtOnceCall> for AtOnce<'_> {
    /// Takes a link, or makes all of them.
    fn answer(&mut self, call: AtOnceCall, rest: &str, out: &mut Out) -> CaseReply {
        let in_order = match call {
            AtOnceCall::Link => return out.check(self.list.push(link_of(rest))),
            AtOnceCall::Order => true,
            AtOnceCall::Made => false,
        };
        say_made(linked(self.alloc, self.parents, &self.list), in_order, out)
    }
}
