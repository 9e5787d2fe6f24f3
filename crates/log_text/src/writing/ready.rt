//! A machine with names that are ready to be copied.

ghost use Rattle.std.specs.Prelude.{◌≡◌, ◌≤◌, ◌++◌, [], ℕ, IfOk, length, slice_get};
ghost use Rattle.std.specs.Option.{ForSome};
ghost use Rattle.sleep_model.specs.declared.entry.Actor.TheVariants as actor;
ghost use Rattle.sleep_model.specs.Text.{name_in, script_text, source_names, space};
ghost use Rattle.log_words.specs.Front.{maker_text};
ghost use Rattle.log_text.specs.Named.{device_names, notifier_names, script_names};

use crate::reading::names::{ByKind, OfNames};
use log_words::{ShortText, script_word};
use sleep_base::{Mem, drop_for_mem};
use sleep_model::{Actor, Machine, Name, Script};
use std::alloc::Global;
use std::marker::Model;

/// The most bytes of a name.
pub const LONGEST: usize = 32;

/// A machine, and the texts that lines have of its things. Contracts see the machine.
#[derive(Drop)]
pub struct ReadyNames<'a> {
    machine: &'a Machine,
    /// The name of what is not there.
    none: ShortText,
    makers: Vec<ShortText>,
    scripts: Vec<ShortText>,
    timers: Vec<ShortText>,
    auto: ShortText,
    time: ShortText,
    names: ByKind<Vec<ShortText>>,
}

impl<'a> Model for ReadyNames<'a> {
    ghost use Rattle.sleep_model.specs.declared.machine.Machine.{Machine};

    ghost Value = { Machine };

    ghost use Rattle.log_text.specs.Ready.{IsReady};

    ghost view = { λ r. r.machine.now };

    ghost invariant = { λ r. IsReady r.machine.now r.none r.auto r.time r.makers.items r.scripts.items r.timers.items r.names.devices.items r.names.syscore.items r.names.notifiers.items r.names.sources.items r.names.marks.items r.names.scripts.items };
}

impl<'a> ReadyNames<'a> {
    ghost use Rattle.std.specs.Prelude.{◌≡◌, IfOk, IfSome};
    ghost use Rattle.sleep_model.specs.Text.{device, mark, notifier, source, syscore, task};
    ghost use Rattle.log_words.specs.Front.{maker_text};

    /// The machine with its names. `Mem` if there is no memory for them.
    pub fn new(alloc: Global, machine: &'a Machine) -> Result<Self, Mem>
        ensures { IfOk result (λ r. r ≡ machine.now) }
    {
        let names = ByKind::<Vec<ShortText>>::of(alloc, machine)?;
        let devices = names.devices.as_slice();
        let sources = names.sources.as_slice();
        let Ok((makers, scripts, timers)) = makers_of(alloc, machine, devices, sources) else {
            return Err(drop_for_mem(names));
        };
        Ok(ReadyNames {
            machine,
            none: ShortText::of(b""),
            makers,
            scripts,
            timers,
            auto: ShortText::of(b"auto "),
            time: ShortText::of(b"time "),
            names,
        })
    }

    /// The machine.
    pub fn machine(&self) -> &'a Machine
        ensures { result.now ≡ self.now }
    {
        self.machine
    }

    /// The name of the device with that number, empty past the end.
    #[inline(always)]
    #[tactic(auto, using(crate::proofs::Lists::device_at))]
    pub fn device(&self, index: u32) -> &ShortText
        ensures { result.now ≡ device self.now index }
    {
        name_at(self.names.devices.as_slice(), &self.none, index)
    }

    /// The name of the device with that number, if it is there.
    #[inline(always)]
    #[tactic(auto, using(crate::proofs::Lists::device_at))]
    pub fn known_device(&self, index: u32) -> Option<&ShortText>
        ensures { IfSome result (λ t. t.now ≡ device self.now index) }
    {
        self.names.devices.as_slice().get(index as usize)
    }

    /// The name of the syscore step with that number, empty past the end.
    pub fn syscore(&self, index: u32) -> &ShortText
        ensures { result.now ≡ syscore self.now index }
    {
        name_at(self.names.syscore.as_slice(), &self.none, index)
    }

    /// The name of the notifier with that number, empty past the end.
    #[tactic(auto, using(crate::proofs::Lists::notifier_at))]
    pub fn notifier(&self, index: u32) -> &ShortText
        ensures { result.now ≡ notifier self.now index }
    {
        name_at(self.names.notifiers.as_slice(), &self.none, index)
    }

    /// The name of the source with that number, `autosleep` after those of the machine, empty past it.
    pub fn source(&self, index: u32) -> &ShortText
        ensures { result.now ≡ source self.now index }
    {
        name_at(self.names.sources.as_slice(), &self.none, index)
    }

    /// The name of the mark with that number, empty past the end.
    pub fn mark(&self, index: u32) -> &ShortText
        ensures { result.now ≡ mark self.now index }
    {
        name_at(self.names.marks.as_slice(), &self.none, index)
    }

    /// The name of the task with that number, empty past the end.
    #[tactic(auto, using(crate::proofs::Lists::task_at))]
    pub fn task(&self, index: u32) -> &ShortText
        ensures { result.now ≡ task self.now index }
    {
        name_at(self.names.scripts.as_slice(), &self.none, index)
    }

    /// Who makes an entry, with the space after it, if it is ready.
    #[inline(always)]
    pub fn maker(&self, who: Actor) -> Option<&ShortText>
        ensures { IfSome result (λ t. t.now ≡ maker_text self.now who) }
    {
        match who {
            Actor::Script(index) => self.scripts.as_slice().get(index as usize),
            Actor::Dev(index) => self.makers.as_slice().get(index as usize),
            Actor::Timer(index) => self.timers.as_slice().get(index as usize),
            Actor::Auto => Some(&self.auto),
            Actor::Time => Some(&self.time),
        }
    }
}

/// Names of three kinds of things.
type ThreeTexts = (Vec<ShortText>, Vec<ShortText>, Vec<ShortText>);

/// The text with that number, the given one past the end.
#[inline(always)]
fn name_at<'a>(names: &'a [ShortText], none: &'a ShortText, index: u32) -> &'a ShortText
    requires { none.now ≡ [] }
    ensures { result.now ≡ name_in (slice_get names.now index) }
{
    match names.get(index as usize) {
        Some(name) => name,
        None => none,
    }
}

impl OfNames for Vec<ShortText> {
    ghost listed = { λ texts. texts.items };

    /// The texts of these names. `Mem` also if one has more bytes than a name may have, which no name has.
    fn of_names(alloc: Global, names: Vec<Name>) -> Result<Self, Mem> {
        name_texts(alloc, names.as_slice())
    }
}

/// These names. `Mem` also if one has more bytes than a name may have.
fn name_texts(alloc: Global, names: &[Name]) -> Result<Vec<ShortText>, Mem>
    ensures { IfOk result (λ v. v.items ≡ names.now) }
{
    let mut texts = Vec::with_capacity(alloc, names.len())?;
    for name in names {
        texts.push(name_text(name)?)?;
    }
    Ok(texts)
}

/// The text of a name. `Mem` if it has more bytes than a name may have.
fn name_text(name: &Name) -> Result<ShortText, Mem>
    ensures { IfOk result (λ t. t ≡ name.now) }
{
    let name = name.bytes();
    if name.len() > LONGEST {
        return Err(Mem);
    }
    Ok(ShortText::of(name))
}

/// Who makes an entry, of that kind and that name, with the space after it. `Mem` if the name has more bytes
/// than a name may have.
fn maker(kind: &[u8], name: &[u8]) -> Result<ShortText, Mem>
    requires { length kind.now ≤ 6 }
    ensures { IfOk result (λ t. t ≡ (kind.now ++ name.now) ++ space) }
{
    if name.len() > LONGEST {
        return Err(Mem);
    }
    let mut text = ShortText::of(kind);
    text.push(name);
    text.push(b" ");
    Ok(text)
}

/// Devices, scripts and the timers of sources as who makes an entry, by the names of devices and sources.
fn makers_of(
    alloc: Global,
    machine: &Machine,
    devices: &[ShortText],
    sources: &[ShortText],
) -> Result<ThreeTexts, Mem>
    requires devices { devices.now ≡ device_names machine.now }
    requires sources { sources.now ≡ source_names machine.now }
    ensures makers { IfOk result (λ t. (i : ℕ) → ForSome (slice_get t.0.items i) (λ t. t ≡ maker_text machine.now (actor.Dev i))) }
    ensures scripts { IfOk result (λ t. (i : ℕ) → ForSome (slice_get t.1.items i) (λ t. t ≡ maker_text machine.now (actor.Script i))) }
    ensures timers { IfOk result (λ t. (i : ℕ) → ForSome (slice_get t.2.items i) (λ t. t ≡ maker_text machine.now (actor.Timer i))) }
{
    let makers = makers_named(alloc, b"dev:", devices)?;
    let Ok(scripts) = script_makers(alloc, machine.actors.as_slice()) else {
        return Err(drop_for_mem(makers));
    };
    let Ok(timers) = makers_named(alloc, b"timer:", sources) else {
        return Err(drop_for_mem((makers, scripts)));
    };
    Ok((makers, scripts, timers))
}

/// Scripts as who makes an entry. `Mem` also if a name has more bytes than a name may have.
fn script_makers(alloc: Global, scripts: &[Script]) -> Result<Vec<ShortText>, Mem>
    ensures { IfOk result (λ v. (i : ℕ) → ForSome (slice_get v.items i)
        (λ t. t ≡ script_text (slice_get scripts.now i) ++ space)) }
{
    let mut texts = Vec::with_capacity(alloc, scripts.len())?;
    for script in scripts {
        let word = script_word(script.kind).as_bytes();
        texts.push(maker(word, script.name.bytes())?)?;
    }
    Ok(texts)
}

/// Things of that kind and of these names as who makes an entry. `Mem` also if a name has more bytes than a
/// name may have.
fn makers_named(alloc: Global, kind: &[u8], names: &[ShortText]) -> Result<Vec<ShortText>, Mem>
    requires { length kind.now ≤ 6 }
    ensures { IfOk result (λ v. (i : ℕ) → ForSome (slice_get v.items i)
        (λ t. t ≡ (kind.now ++ name_in (slice_get names.now i)) ++ space)) }
{
    let mut texts = Vec::with_capacity(alloc, names.len())?;
    for name in names {
        texts.push(maker(kind, name.as_bytes())?)?;
    }
    Ok(texts)
}
