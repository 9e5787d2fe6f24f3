//! The least of many moments, each of which may change.

ghost use Rattle.std.specs.Prelude.{◌≡◌, ◌≤◌, ◌<◌, ◌*◌, false, drop, length, nat_lt, slice_index_or, IfSome};
ghost use Rattle.sleep_model.specs.Legal.{sooner};
ghost use Rattle.sleep_state.specs.Sleepers.{is_later};
ghost use Rattle.sleep_state.specs.Trees.{never, moment_of, AreLeastBelow, AreJoinedBut};

use sleep_base::Mem;
use std::alloc::Global;
use std::marker::Model;

/// The moment of a thing that has none.
pub(crate) const NEVER: u64 = u64::MAX;

/// The last moment that a thing may have. A sleep up to `NEVER` has it too.
pub(crate) const LAST: u64 = NEVER - 1;

/// A moment for each of some things, `NEVER` if it has none, and the least of all. The nodes are a tree: node
/// k is above the nodes 2k and 2k + 1, and has the lesser of their moments, so that the first has the least.
/// The things' own moments are the last.
#[derive(Drop)]
pub(crate) struct Moments {
    many: usize,
    nodes: Vec<u64>,
}

impl Model for Moments {
    ghost use Rattle.std.specs.Prelude.{ℕ, List};

    ghost Value = { List ℕ };

    ghost use Rattle.sleep_state.specs.MomentFields.{own, moments_invariant};

    ghost view = { own };

    ghost invariant = { moments_invariant };
}

/// The moment at which a sleep up to that one ends, if there is one.
#[inline(always)]
pub(crate) fn moment_of(until: Option<u64>) -> u64
    ensures { result ≡ moment_of until }
{
    match until {
        Some(until) => until.min(LAST),
        None => NEVER,
    }
}

/// The lesser of two moments, if there are any.
#[inline(always)]
pub fn sooner(one: Option<u64>, other: Option<u64>) -> Option<u64>
    ensures { result ≡ sooner one other }
{
    match (one, other) {
        (None, other) => other,
        (one, None) => one,
        (Some(one), Some(other)) => Some(one.min(other)),
    }
}

/// The moment of a node, if there is that node.
#[inline(always)]
fn node(nodes: &[u64], at: usize) -> u64
    ensures { result ≡ slice_index_or nodes.now at never }
{
    match nodes.get(at) {
        Some(moment) => *moment,
        None => NEVER,
    }
}

/// The moment of a node that is there.
#[inline(always)]
#[tactic(auto, using(crate::proofs::Rising::read_is))]
fn node_there(nodes: &[u64], at: usize) -> u64
    requires { at < length nodes.now }
    ensures { result ≡ slice_index_or nodes.now at never }
{
    nodes[at]
}

/// Each node above one that has changed has the lesser moment of the two below it again: those above
/// one that stays as it was do too.
#[inline(never)]
#[tactic(auto, using(crate::proofs::Rising::joined_here))]
fn rise(nodes: &mut [u64], many: usize, above: usize)
    requires size { length nodes.old ≡ 2 * many }
    requires within { above < many }
    requires joined { AreJoinedBut many above nodes.old }
    ensures size { length nodes.new ≡ length nodes.old }
    ensures joined { AreLeastBelow many nodes.new }
    ensures own { drop many nodes.new ≡ drop many nodes.old }
{
    let mut at = above;
    while at > 0 {
        let least = node_there(nodes, 2 * at).min(node_there(nodes, 2 * at + 1));
        if node_there(nodes, at) == least {
            return;
        }
        nodes[at] = least;
        at /= 2;
    }
}

/// Whether a moment, if there is one, is later than that.
#[inline(always)]
pub(crate) fn is_later(moment: Option<u64>, time: u64) -> bool
    ensures { result ≡ is_later moment time }
{
    match moment {
        Some(moment) => time < moment,
        None => true,
    }
}

/// The node of a thing whose moment is not later than now, from a node on whose moment is not: of each node
/// that is above others, one of the two below has its moment.
#[tactic(auto, using(crate::proofs::Coming::come_other))]
fn come_below(nodes: &[u64], many: usize, from: usize, now: u64) -> usize
    requires size { length nodes.now ≡ 2 * many }
    requires joined { AreLeastBelow many nodes.now }
    requires from { (0 < from) × (from < 2 * many) }
    requires come { nat_lt now (slice_index_or nodes.now from never) ≡ false }
    ensures own { many ≤ result }
    ensures come { nat_lt now (slice_index_or nodes.now result never) ≡ false }
{
    let mut at = from;
    while at < many {
        at *= 2;
        if now < node_there(nodes, at) {
            at += 1;
        }
    }
    at
}

/// The first node to the right of one and of those above it whose moment is not later than now: that beside
/// one that is the first of two.
fn come_beside(nodes: &[u64], many: usize, from: usize, now: u64) -> Option<usize>
    requires size { length nodes.now ≡ 2 * many }
    requires within { from < 2 * many }
    ensures within { IfSome result (λ at. (0 < at) × (at < 2 * many)) }
    ensures come { IfSome result (λ at. nat_lt now (slice_index_or nodes.now at never) ≡ false) }
{
    let mut at = from;
    while at > 1 {
        if at % 2 == 0 && node_there(nodes, at + 1) <= now {
            return Some(at + 1);
        }
        at /= 2;
    }
    None
}

impl Moments {
    ghost use Rattle.std.specs.Prelude.{◌≡◌, ◌<◌, true, false, None, length, nat_lt, replicate, slice_index_or, slice_set, IfOk, IfSome};
    ghost use Rattle.sleep_state.specs.Trees.{last, least_of, never};

    /// So many things without a moment. `Mem` if there is no memory.
    #[tactic(auto, using(crate::proofs::Rising::own_first))]
    pub(crate) fn new(alloc: Global, many: usize) -> Result<Self, Mem>
        ensures { IfOk result (λ m. m ≡ replicate many never) }
    {
        if many > usize::MAX / 2 {
            return Err(Mem);
        }
        let nodes = vec![in alloc; NEVER; 2 * many]?;
        Ok(Moments { many, nodes })
    }

    /// The least moment, `NEVER` if there is none.
    #[tactic(auto, using(crate::proofs::Rising::first_least))]
    pub(crate) fn least(&self) -> u64
        ensures { result ≡ least_of self.now }
    {
        node(self.nodes.as_slice(), 1)
    }

    /// The first thing whose moment is not later than now, in the order of the tree.
    #[tactic(auto, using(crate::proofs::Coming::own_come, crate::proofs::Coming::come_within, crate::proofs::Rising::first_least))]
    fn first_come(&self, now: u64) -> Option<usize>
        requires { now < last }
        ensures found { IfSome result (λ thing. nat_lt now (slice_index_or self.now thing never) ≡ false) }
        ensures none { result ≡ None → nat_lt now (least_of self.now) ≡ true }
    {
        if now < node(self.nodes.as_slice(), 1) {
            return None;
        }
        let at = come_below(self.nodes.as_slice(), self.many, 1, now);
        Some(at - self.many)
    }

    /// The first thing after that one, in the order of the tree, whose moment is not later than now. Which is
    /// found is no part of what is promised.
    #[tactic(auto, using(crate::proofs::Coming::own_come))]
    fn come_after(&self, thing: usize, now: u64) -> Option<usize>
        ensures { IfSome result (λ thing. nat_lt now (slice_index_or self.now thing never) ≡ false) }
    {
        if thing >= self.many {
            return None;
        }
        let nodes = self.nodes.as_slice();
        let from = come_beside(nodes, self.many, self.many + thing, now)?;
        let at = come_below(nodes, self.many, from, now);
        Some(at - self.many)
    }

    /// The next thing after that one, or the first of all, whose moment is not later than now. Things are
    /// gone through in the order of the tree. If the search begins at the first and finds none, each moment
    /// is later.
    pub(crate) fn next_come(&self, after: Option<usize>, now: u64) -> Option<usize>
        requires { now < last }
        ensures found { IfSome result (λ thing. nat_lt now (slice_index_or self.now thing never) ≡ false) }
        ensures none { after ≡ None → result ≡ None → nat_lt now (least_of self.now) ≡ true }
    {
        match after {
            Some(thing) => self.come_after(thing, now),
            None => self.first_come(now),
        }
    }

    /// Another moment of a thing, or none.
    pub(crate) fn set(&mut self, thing: usize, moment: u64)
        requires { thing < length self.old }
        ensures { self.new ≡ slice_set self.old thing moment }
    {
        let at = self.many + thing;
        self.nodes[at] = moment;
        rise(self.nodes.as_mut_slice(), self.many, at / 2);
    }
}
