//! Which calls on sources each actor has made and owes, after the entries that were passed.

ghost use Rattle.std.specs.Prelude.{◌≡◌, ◌++◌, [], map, replicate, slice_index_or, slice_set, ◌+◌, IfOk, OnOk};
ghost use Rattle.sleep_model.specs.Calls.{calls_after_turn, calls_of_turn, ends_turn, report_calls};
ghost use Rattle.script_plan.specs.CallPlans.{noted};

use crate::actor_row::{actor_count, actor_index};
use crate::answers::AnswerIndex;
use crate::calls::{Calls, noted};
use crate::plans::Plans;
use script_plan::ends_turn;
use sleep_base::Mem;
use sleep_model::{Actor, Entry, Kind, Machine, Op, Report, What};
use std::alloc::Global;
use std::marker::Model;

/// For each actor how many calls on sources it has made, and how many turns of its own steps it has ended.
/// Which calls it owes after those before its first turn, too.
#[derive(Drop)]
pub struct Callers<'m> {
    plans: Plans<'m>,
    made: Vec<usize>,
    turns: Vec<usize>,
    later: Vec<Calls>,
}

impl<'m> Model for Callers<'m> {
    ghost use Rattle.check_sources.specs.Calling.{CallsOf};

    ghost Value = { CallsOf };

    ghost use Rattle.check_sources.specs.CallerFields.{IsSmall};

    ghost view = { λ c. record {
      machine = c.plans;
      state = record { made = c.made.items; turns = c.turns.items; later = c.later.items };
    } };

    ghost invariant = { λ c. IsSmall c.plans };
}

/// The number at an index, 0 if it is out of range.
fn number_at(numbers: &[usize], place: usize) -> usize
    ensures { result ≡ slice_index_or numbers.now place 0 }
{
    if place < numbers.len() {
        numbers[place]
    } else {
        0
    }
}

/// Sets the number at an index, if it is in range.
fn set_at(numbers: &mut Vec<usize>, place: usize, number: usize)
    ensures { numbers.new.items ≡ slice_set numbers.old.items place number }
{
    if place < numbers.len() {
        numbers[place] = number;
    }
}

/// Puts calls after those at an index, if it is in range.
fn extend_at(
    later: &mut Vec<Calls>,
    place: usize,
    reports: &[Report],
    after: &[Report],
) -> Result<(), Mem>
    ensures { OnOk result (later.new.items ≡ slice_set later.old.items place
        (slice_index_or later.old.items place [] ++ map noted reports.now ++ map noted after.now)) }
{
    if place < later.len() {
        let calls = &mut later[place];
        calls.extend(reports)?;
        calls.extend(after)?;
    }
    Ok(())
}

/// The same, since few entries owe a call.
fn owe_at(
    later: &mut Vec<Calls>,
    place: usize,
    reports: &[Report],
    after: &[Report],
) -> Result<(), Mem>
    ensures { OnOk result (later.new.items ≡ slice_set later.old.items place
        (slice_index_or later.old.items place [] ++ map noted reports.now ++ map noted after.now)) }
{
    if reports.is_empty() && after.is_empty() {
        return Ok(());
    }
    extend_at(later, place, reports, after)
}

/// What the callback that an entry begins reports, in the attempt after `attempts` of them.
fn reports_of<'m>(answers: &AnswerIndex<'m>, kind: Kind, attempts: u32) -> &'m [Report]
    ensures { map noted result.now ≡ report_calls answers.now attempts kind }
{
    match kind {
        Kind::Begin(phase, device) => answers.reports(What::Device(device, phase), attempts),
        _ => &[],
    }
}

/// The calls before an actor's turn with that number: only a script's has some.
fn calls_of_turn<'a>(plans: &'a Plans<'_>, who: Actor, turn: usize) -> &'a [Report]
    ensures { map noted result.now ≡ calls_of_turn plans.now who turn }
{
    match who {
        Actor::Script(i) => plans.calls_at(i, turn),
        _ => &[],
    }
}

/// The calls right after a turn, if one has ended.
fn calls_after_turn<'a>(plans: &'a Plans<'_>, who: Actor, ended: bool, turn: usize) -> &'a [Report]
    ensures { map noted result.now ≡ calls_after_turn plans.now who ended turn }
{
    if ended {
        calls_of_turn(plans, who, turn)
    } else {
        &[]
    }
}

/// One more. `Mem` if the counter has no room.
fn one_further(count: usize) -> Result<usize, Mem>
    ensures { IfOk result (λ n. n ≡ count + 1) }
{
    match count.checked_add(1) {
        Some(n) => Ok(n),
        None => Err(Mem),
    }
}

/// So many actors, none of which owes a call. `Mem` if there is no memory.
fn none_owed(alloc: Global, places: usize) -> Result<Vec<Calls>, Mem>
    ensures { IfOk result (λ v. v.items ≡ replicate places []) }
{
    let mut later = Vec::new(alloc);
    for i in 0..places {
        later.push(Calls::new(alloc))?;
    }
    Ok(later)
}

impl<'m> Callers<'m> {
    ghost use Rattle.std.specs.Prelude.{◌≡◌, ◌≤◌, [], length, slice_get, option_copied, IfOk, OnOk};
    ghost use Rattle.sleep_model.specs.Accepted.{IsAccepted};
    ghost use Rattle.sleep_model.specs.Laws.{steps_of};
    ghost use Rattle.check_sources.specs.Calling.{callers_of, entered_by, noted_by, made_at, later_at, calls_by};

    /// Before the first entry, on a machine as files spell it. `Mem` if there is no memory for it.
    pub fn new(alloc: Global, machine: &'m Machine) -> Result<Self, Mem>
        requires { IsAccepted machine.now }
        ensures { IfOk result (λ c. c ≡ record { machine = machine.now; state = callers_of machine.now [] }) }
    {
        let places = actor_count(machine);
        let made = vec![in alloc; 0; places]?;
        let turns = vec![in alloc; 0; places]?;
        let later = none_owed(alloc, places)?;
        // The largest comes last, with no exit after it.
        let plans = Plans::new(alloc, machine)?;
        Ok(Callers {
            plans,
            made,
            turns,
            later,
        })
    }

    /// The operation that makes a script's entries with that number, from 0. None if it has none left.
    pub fn operation(&self, script: u32, number: usize) -> Option<&'m Op>
        ensures { option_copied result ≡ slice_get (steps_of (slice_get self.now.machine.actors script)) number }
    {
        self.plans.operation(script, number)
    }

    /// What the machine's callbacks answer.
    pub fn answers(&self) -> &AnswerIndex<'m>
        ensures { result.now ≡ self.now.machine }
    {
        self.plans.answers()
    }

    /// Passes a note of that actor. `Mem` if a counter has no room.
    pub fn note(&mut self, who: Actor) -> Result<(), Mem>
        ensures { OnOk result (self.new ≡ record self.old { state = noted_by self.old.machine who self.old.state }) }
    {
        let place = actor_index(self.plans.machine(), who);
        let more = one_further(number_at(&self.made, place))?;
        set_at(&mut self.made, place, more);
        Ok(())
    }

    /// Passes an entry of the journal, after the attempts that were begun. `Mem` if a counter has no room, or
    /// if there is no memory for the calls.
    pub fn pass(&mut self, e: Entry, attempts: u32) -> Result<(), Mem>
        ensures { OnOk result (self.new ≡ record self.old { state = entered_by self.old.machine e attempts self.old.state }) }
    {
        let machine = self.plans.machine();
        let place = actor_index(machine, e.actor);
        let ended = ends_turn(e.kind);
        let turn = one_further(number_at(&self.turns, place))?;
        let reports = reports_of(self.plans.answers(), e.kind, attempts);
        let after = calls_after_turn(&self.plans, e.actor, ended, turn);
        owe_at(&mut self.later, place, reports, after)?;
        if ended {
            set_at(&mut self.turns, place, turn);
        }
        Ok(())
    }

    /// How many calls an actor has made.
    pub fn made(&self, who: Actor) -> usize
        ensures { result ≡ made_at self.now.machine self.now.state who }
    {
        number_at(&self.made, actor_index(self.plans.machine(), who))
    }

    /// The calls that an actor owes after those before its first turn.
    fn later(&self, who: Actor) -> &[Kind]
        ensures { result.now ≡ later_at self.now.machine self.now.state who }
    {
        let place = actor_index(self.plans.machine(), who);
        if place < self.later.len() {
            self.later[place].as_slice()
        } else {
            &[]
        }
    }

    /// How many calls an actor owes in all before it may append to the journal. `Mem` if the sum has no room.
    pub fn due(&self, who: Actor) -> Result<usize, Mem>
        ensures { IfOk result (λ n. n ≡ length (calls_by self.now.machine self.now.state who)) }
    {
        let first = calls_of_turn(&self.plans, who, 0).len();
        match first.checked_add(self.later(who).len()) {
            Some(n) => Ok(n),
            None => Err(Mem),
        }
    }

    /// The one with that number of the calls that an actor owes after those before its first turn.
    fn later_call(&self, who: Actor, number: usize) -> Option<Kind>
        ensures { result ≡ slice_get (later_at self.now.machine self.now.state who) number }
    {
        self.later(who).get(number).copied()
    }

    /// The next call of an actor, if it has one to make.
    pub fn next(&self, who: Actor) -> Option<Kind>
        ensures { result ≡ slice_get (calls_by self.now.machine self.now.state who) (made_at self.now.machine self.now.state who) }
    {
        let first = calls_of_turn(&self.plans, who, 0);
        let made = self.made(who);
        if made < first.len() {
            Some(noted(first[made]))
        } else {
            self.later_call(who, made - first.len())
        }
    }
}
