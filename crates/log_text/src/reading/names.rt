//! The names of a machine's things, by the kind of thing.

ghost use Rattle.std.specs.Prelude.{◌≡◌, ◌++◌, ◌∷◌, [], ℕ, List, IfOk, codes, map};
ghost use Rattle.log_text.specs.MachineNames.{HasNames};

use sleep_base::Mem;
use sleep_model::{Device, Machine, Name, Notifier, Script};
use std::alloc::Global;

/// What is made of the names of the things of one kind.
pub trait OfNames: Sized + Drop {
    ghost use Rattle.std.specs.Prelude.{◌≡◌, ℕ, List, IfOk};

    /// The names.
    ghost listed: { Self → List (List ℕ) };

    /// What is made of these names. `Mem` if there is no memory for it.
    fn of_names(alloc: Global, names: Vec<Name>) -> Result<Self, Mem>
        ensures { IfOk result (λ made. listed made ≡ names.items) };
}

/// What is made of the names of a machine's things, of each kind on its own.
#[derive(Drop)]
pub struct ByKind<T> {
    pub devices: T,
    pub syscore: T,
    pub notifiers: T,
    /// Those of the machine, and then `autosleep`.
    pub sources: T,
    pub marks: T,
    pub scripts: T,
}

impl<T: OfNames> ByKind<T> {
    /// What is made of the names of this machine's things. `Mem` if there is no memory for it.
    pub fn of(alloc: Global, machine: &Machine) -> Result<Self, Mem>
        ensures { IfOk result (λ k. HasNames machine.now (T.listed k.devices) (T.listed k.syscore) (T.listed k.notifiers) (T.listed k.sources) (T.listed k.marks) (T.listed k.scripts)) }
    {
        let devices = made_of(alloc, names_of_devices(alloc, machine.devices.as_slice()))?;
        let syscore = made_of(alloc, names_of(alloc, machine.syscore.as_slice()))?;
        let notifiers = made_of(
            alloc,
            names_of_notifiers(alloc, machine.notifiers.as_slice()),
        )?;
        let sources = made_of(alloc, names_of_sources(alloc, machine.sources.as_slice()))?;
        let marks = made_of(alloc, names_of(alloc, machine.marks.as_slice()))?;
        let scripts = made_of(alloc, names_of_scripts(alloc, machine.actors.as_slice()))?;
        Ok(ByKind {
            devices,
            syscore,
            notifiers,
            sources,
            marks,
            scripts,
        })
    }
}

/// What is made of these names, if there was memory for them.
fn made_of<T: OfNames>(alloc: Global, names: Result<Vec<Name>, Mem>) -> Result<T, Mem>
    ensures { (l : List (List ℕ)) → IfOk names (λ v. v.items ≡ l) → IfOk result (λ made. T.listed made ≡ l) }
{
    match names {
        Ok(names) => T::of_names(alloc, names),
        Err(fault) => Err(fault),
    }
}

/// A copy of these names.
fn names_of(alloc: Global, names: &[Name]) -> Result<Vec<Name>, Mem>
    ensures { IfOk result (λ v. v.items ≡ names.now) }
{
    let names = Vec::from_slice(alloc, names)?;
    Ok(names)
}

/// The devices' names, in order.
fn names_of_devices(alloc: Global, devices: &[Device]) -> Result<Vec<Name>, Mem>
    ensures { IfOk result (λ v. v.items ≡ map (λ d. d.name) devices.now) }
{
    let names = devices.iter().map(|device| device.name).collect(alloc)?;
    Ok(names)
}

/// The notifiers' names, in order.
fn names_of_notifiers(alloc: Global, notifiers: &[Notifier]) -> Result<Vec<Name>, Mem>
    ensures { IfOk result (λ v. v.items ≡ map (λ x. x.name) notifiers.now) }
{
    let names = notifiers
        .iter()
        .map(|notifier| notifier.name)
        .collect(alloc)?;
    Ok(names)
}

/// The scripts' names, in order.
fn names_of_scripts(alloc: Global, scripts: &[Script]) -> Result<Vec<Name>, Mem>
    ensures { IfOk result (λ v. v.items ≡ map (λ s. s.name) scripts.now) }
{
    let names = scripts.iter().map(|script| script.name).collect(alloc)?;
    Ok(names)
}

/// The sources' names, in order, `autosleep` last.
fn names_of_sources(alloc: Global, sources: &[Name]) -> Result<Vec<Name>, Mem>
    ensures { IfOk result (λ v. v.items ≡ sources.now ++ codes "autosleep" ∷ []) }
{
    let mut names = Vec::from_slice(alloc, sources)?;
    names.push(Name::autosleep())?;
    Ok(names)
}
