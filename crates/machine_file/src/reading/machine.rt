//! The rules of a machine file in their order, and its links, scripts and answers if it breaks none.

ghost use Rattle.std.specs.Prelude.{◌≡◌, [], option_map, codes, Some, None, IfOk, IfErr};
ghost use Rattle.std.specs.Option.{option_or};
ghost use Rattle.borrowed_json.specs.View.{view};
ghost use Rattle.borrowed_json.specs.Look.{list_in};
ghost use Rattle.file_rules.specs.Places.{first_not_after};
ghost use Rattle.file_rules.specs.Devices.{closes_no_cycle};
ghost use Rattle.file_rules.specs.Knows.{Knows};
ghost use Rattle.file_rules.specs.Answering.{whole_answers};
ghost use Rattle.machine_file.specs.Sound.{IsSound, SpellsBehaviour};
ghost use Rattle.file_rules.specs.ValidFiles.{first_in_order, broken_form, broken_devices, broken_ends, broken_cycle, broken_behaviour, broken_rest};
ghost use Rattle.file_rules.specs.Seen.{AreEnds, AreNumbersOf};
ghost use Rattle.file_rules.specs.Broken.{broken_view};
ghost use Rattle.file_rules.specs.Whole.{first_of};
ghost use Rattle.file_rules.specs.Groups.{last_rules, reply_rules};
ghost use Rattle.file_rules.specs.Knows.{SpellsScripts};

use crate::fault::Stop;
use crate::reading::replies::answers_in;
use crate::reading::scripts::scripts_in;
use crate::rules::cycles::{Linking, linking_of};
use borrowed_json::Value;
use file_rules::{
    Broken, EndNumbers, Known, LinkEnds, Member, Place, end_broken, ends_in, form_broken,
    is_second, items, last_broken, numbers_in, operation_broken, reply_broken, thing_broken,
};
use sleep_base::{Mem, drop_for_mem};
use sleep_model::{Answer, Script};
use std::alloc::Global;

/// The first rule on form that is broken.
#[tactic(auto, unfolding(file_rules::specs::ValidFiles::broken_form))]
pub(crate) fn first_of_form(tree: &Value<'_>) -> Option<Broken>
    ensures { option_map broken_view result ≡ broken_form (view tree.now) }
{
    form_broken(tree)
}

#[tactic(auto, unfolding(file_rules::specs::ValidFiles::broken_ends))]
fn first_of_ends(
    alloc: Global,
    tree: &Value<'_>,
    ends: &[LinkEnds<'_>],
    places: &[EndNumbers],
) -> Result<Option<Broken>, Mem>
    requires ends { AreEnds ends.now (view tree.now) }
    requires placed { AreNumbersOf places.now (view tree.now) }
    ensures { IfOk result (λ b. option_map broken_view b ≡ broken_ends (view tree.now)) }
{
    end_broken(alloc, tree, ends, places)
}

/// The rule on cycles, if a link closes one.
#[tactic(auto, unfolding(file_rules::specs::ValidFiles::broken_cycle))]
fn first_cycle(cycle: Option<usize>, _tree: &Value<'_>) -> Option<Broken>
    requires { cycle ≡ first_not_after (closes_no_cycle (view _tree.now)) [] 0 (list_in (codes "links") (view _tree.now)) }
    ensures { option_map broken_view result ≡ broken_cycle (view _tree.now) }
{
    match cycle {
        Some(number) => {
            let place = Place::Item(Member::Links, number);
            Some(Broken { rule: 12, place })
        }
        None => None,
    }
}

/// What the actors of a machine and its callbacks do.
#[derive(Drop)]
pub(crate) struct Behaviour {
    pub(crate) scripts: Vec<Script>,
    pub(crate) answers: Vec<Answer>,
}

/// The answers of a file, or the first rule on them and their reports that is broken. It is searched for only
/// if one is.
fn answers_of_file(
    alloc: Global,
    tree: &Value<'_>,
    known: &Known<'_>,
) -> Result<Result<Vec<Answer>, Broken>, Mem>
    requires form { broken_form (view tree.now) ≡ None }
    requires knows { Knows known.now (view tree.now) }
    ensures spelled { IfOk result (λ r. IfOk r (λ v. v.items ≡ whole_answers (view tree.now))) }
    ensures unbroken { IfOk result (λ r. IfOk r (λ _. first_of reply_rules (view tree.now) ≡ None)) }
    ensures broken { IfOk result (λ r. IfErr r (λ b. first_of reply_rules (view tree.now) ≡ Some (broken_view b))) }
{
    match answers_in(alloc, items(tree, Member::Answers), known) {
        Ok(answers) => Ok(Ok(answers)),
        Err(Stop::Broken) => match reply_broken(tree, known) {
            Some(broken) => Ok(Err(broken)),
            None => unreachable!(),
        },
        Err(Stop::Mem) => Err(Mem),
    }
}

/// These scripts, of which each keeps the rules on operations, and the answers of their file, or the first
/// rule on answers that is broken.
fn with_answers(
    alloc: Global,
    tree: &Value<'_>,
    known: &Known<'_>,
    scripts: Vec<Script>,
) -> Result<Result<Behaviour, Broken>, Mem>
    requires form { broken_form (view tree.now) ≡ None }
    requires knows { Knows known.now (view tree.now) }
    requires scripts { SpellsScripts (view tree.now) known.now scripts }
    requires operations { broken_behaviour (view tree.now) ≡ first_of reply_rules (view tree.now) }
    ensures spelled { IfOk result (λ r. IfOk r (SpellsBehaviour (view tree.now) known.now)) }
    ensures unbroken { IfOk result (λ r. IfOk r (λ _. broken_behaviour (view tree.now) ≡ None)) }
    ensures broken { IfOk result (λ r. IfErr r (λ b. broken_behaviour (view tree.now) ≡ Some (broken_view b))) }
{
    let Ok(answers) = answers_of_file(alloc, tree, known) else {
        return Err(drop_for_mem(scripts));
    };
    match answers {
        Ok(answers) => Ok(Ok(Behaviour { scripts, answers })),
        Err(broken) => {
            drop(scripts);
            Ok(Err(broken))
        }
    }
}

/// The scripts and the answers of a file, or the first rule on operations and answers that is broken. It is
/// searched for only if one is.
fn behaviour_in(
    alloc: Global,
    tree: &Value<'_>,
    known: &Known<'_>,
) -> Result<Result<Behaviour, Broken>, Mem>
    requires form { broken_form (view tree.now) ≡ None }
    requires knows { Knows known.now (view tree.now) }
    ensures spelled { IfOk result (λ r. IfOk r (SpellsBehaviour (view tree.now) known.now)) }
    ensures unbroken { IfOk result (λ r. IfOk r (λ _. broken_behaviour (view tree.now) ≡ None)) }
    ensures broken { IfOk result (λ r. IfErr r (λ b. broken_behaviour (view tree.now) ≡ Some (broken_view b))) }
{
    match scripts_in(alloc, is_second(tree), items(tree, Member::Actors), known) {
        Ok(scripts) => with_answers(alloc, tree, known, scripts),
        Err(Stop::Broken) => match operation_broken(tree, known) {
            Some(broken) => Ok(Err(broken)),
            None => unreachable!(),
        },
        Err(Stop::Mem) => Err(Mem),
    }
}

/// These scripts and answers of a file, of which each keeps the rules on one operation or answer, or the first
/// of the last rules that is broken.
fn unless_last_broken(
    alloc: Global,
    tree: &Value<'_>,
    known: &Known<'_>,
    behaviour: Behaviour,
) -> Result<Result<Behaviour, Broken>, Mem>
    requires form { broken_form (view tree.now) ≡ None }
    requires knows { Knows known.now (view tree.now) }
    requires spelled { SpellsBehaviour (view tree.now) known.now behaviour }
    requires unbroken { broken_behaviour (view tree.now) ≡ None }
    ensures spelled { IfOk result (λ r. IfOk r (SpellsBehaviour (view tree.now) known.now)) }
    ensures unbroken { IfOk result (λ r. IfOk r (λ _. first_of last_rules (view tree.now) ≡ None)) }
    ensures broken { IfOk result (λ r. IfErr r (λ b. first_of last_rules (view tree.now) ≡ Some (broken_view b))) }
{
    let Ok(last) = last_broken(alloc, tree, known, &behaviour.scripts) else {
        return Err(drop_for_mem(behaviour));
    };
    match last {
        Some(broken) => {
            drop(behaviour);
            Ok(Err(broken))
        }
        None => Ok(Ok(behaviour)),
    }
}

/// The scripts and the answers of a file, or the first rule after those on links that is broken.
#[tactic(auto, unfolding(file_rules::specs::ValidFiles::broken_rest))]
pub(crate) fn rest_in(
    alloc: Global,
    tree: &Value<'_>,
    known: &Known<'_>,
) -> Result<Result<Behaviour, Broken>, Mem>
    requires form { broken_form (view tree.now) ≡ None }
    requires knows { Knows known.now (view tree.now) }
    ensures spelled { IfOk result (λ r. IfOk r (SpellsBehaviour (view tree.now) known.now)) }
    ensures unbroken { IfOk result (λ r. IfOk r (λ _. broken_rest (view tree.now) ≡ None)) }
    ensures broken { IfOk result (λ r. IfErr r (λ b. broken_rest (view tree.now) ≡ Some (broken_view b))) }
{
    if let Some(broken) = thing_broken(alloc, tree, known)? {
        return Ok(Err(broken));
    }
    match behaviour_in(alloc, tree, known)? {
        Ok(behaviour) => unless_last_broken(alloc, tree, known, behaviour),
        Err(broken) => Ok(Err(broken)),
    }
}

/// The scripts and the answers of a file, or the first rule after those on the ends of links that is broken.
fn behaviour_after(
    alloc: Global,
    tree: &Value<'_>,
    known: &Known<'_>,
    cycle: Option<usize>,
) -> Result<Result<Behaviour, Broken>, Mem>
    requires form { broken_form (view tree.now) ≡ None }
    requires knows { Knows known.now (view tree.now) }
    requires cycle { cycle ≡ first_not_after (closes_no_cycle (view tree.now)) [] 0 (list_in (codes "links") (view tree.now)) }
    ensures spelled { IfOk result (λ r. IfOk r (SpellsBehaviour (view tree.now) known.now)) }
    ensures unbroken { IfOk result (λ r. IfOk r (λ _. option_or (broken_cycle (view tree.now)) (broken_rest (view tree.now)) ≡ None)) }
    ensures broken { IfOk result (λ r. IfErr r (λ b. option_or (broken_cycle (view tree.now)) (broken_rest (view tree.now)) ≡ Some (broken_view b))) }
{
    match first_cycle(cycle, tree) {
        Some(broken) => Ok(Err(broken)),
        None => rest_in(alloc, tree, known),
    }
}

/// The links of a file that breaks no rule, its scripts and its answers.
#[derive(Drop)]
pub(crate) struct Parts {
    pub(crate) linking: Linking,
    pub(crate) behaviour: Behaviour,
}

/// The links, the scripts and the answers of a file, or the first rule after those on devices that is broken.
pub(crate) fn parts_in(
    alloc: Global,
    tree: &Value<'_>,
    known: &Known<'_>,
) -> Result<Result<Parts, Broken>, Mem>
    requires form { broken_form (view tree.now) ≡ None }
    requires devices { broken_devices (view tree.now) ≡ None }
    requires knows { Knows known.now (view tree.now) }
    ensures sound { IfOk result (λ r. IfOk r (IsSound (view tree.now) known.now)) }
    ensures broken { IfOk result (λ r. IfErr r (λ b. first_in_order (view tree.now) ≡ Some (broken_view b))) }
{
    match ends_of_links(alloc, tree, known)? {
        Ok(places) => parts_by(alloc, tree, known, &places),
        Err(broken) => Ok(Err(broken)),
    }
}

/// The places of the ends of links, or the first rule on those ends that is broken.
fn ends_of_links(
    alloc: Global,
    tree: &Value<'_>,
    known: &Known<'_>,
) -> Result<Result<Vec<EndNumbers>, Broken>, Mem>
    requires form { broken_form (view tree.now) ≡ None }
    requires devices { broken_devices (view tree.now) ≡ None }
    requires knows { Knows known.now (view tree.now) }
    ensures placed { IfOk result (λ r. IfOk r (λ places. AreNumbersOf places.items (view tree.now))) }
    ensures sound { IfOk result (λ r. IfOk r (λ _. broken_ends (view tree.now) ≡ None)) }
    ensures broken { IfOk result (λ r. IfErr r (λ b. broken_ends (view tree.now) ≡ Some (broken_view b))) }
{
    let ends = ends_in(alloc, tree)?;
    let places = numbers_in(alloc, tree, known, &ends)?;
    match first_of_ends(alloc, tree, &ends, &places)? {
        Some(broken) => Ok(Err(broken)),
        None => Ok(Ok(places)),
    }
}

/// The links between these places, the scripts and the answers, or the first rule after those on the ends of
/// links that is broken.
fn parts_by(
    alloc: Global,
    tree: &Value<'_>,
    known: &Known<'_>,
    places: &[EndNumbers],
) -> Result<Result<Parts, Broken>, Mem>
    requires form { broken_form (view tree.now) ≡ None }
    requires devices { broken_devices (view tree.now) ≡ None }
    requires ends { broken_ends (view tree.now) ≡ None }
    requires knows { Knows known.now (view tree.now) }
    requires placed { AreNumbersOf places.now (view tree.now) }
    ensures sound { IfOk result (λ r. IfOk r (IsSound (view tree.now) known.now)) }
    ensures broken { IfOk result (λ r. IfErr r (λ b. first_in_order (view tree.now) ≡ Some (broken_view b))) }
{
    let linking = linking_of(alloc, tree, known, places)?;
    let Ok(behaviour) = behaviour_after(alloc, tree, known, linking.added.cycle) else {
        return Err(drop_for_mem(linking));
    };
    match behaviour {
        Ok(behaviour) => Ok(Ok(Parts { linking, behaviour })),
        Err(broken) => {
            drop(linking);
            Ok(Err(broken))
        }
    }
}
