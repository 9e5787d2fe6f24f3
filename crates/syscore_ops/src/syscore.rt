//! The syscore operations, and which of them is suspended or resumed next.
ghost use Rattle.std.specs.Prelude.{◌≡◌, not, find};
ghost use Rattle.std.specs.List.{range_with_len};
ghost use Rattle.sleep_model.specs.Walk.{is_so, last_where};

use device_rows::Flags;
use sleep_base::{Errno, Mem};
use sleep_model::Kind;
use std::alloc::Global;
use std::marker::Model;

/// The syscore operations by number, in the order of the file, and which of them are suspended
/// (`syscore_ops_list`).
#[derive(Drop)]
pub struct Syscore {
    n: u32,
    suspended: Flags,
}

impl Model for Syscore {
    ghost use Rattle.syscore_ops.specs.SyscoreStates.{SyscoreState};

    ghost Value = { SyscoreState };

    ghost view = { λ s. record { n = s.n; flags = s.suspended } };
}

impl Syscore {
    ghost use Rattle.std.specs.Prelude.{◌≡◌, false, replicate, IfOk, IsSome};
    ghost use Rattle.syscore_ops.specs.SyscoreStates.{syscore_after, syscore_after_any, next_suspended, next_resumed, suspend_entry, resume_entry};

    /// `n` parts, none of which is suspended. `Mem` if there is no memory for the parts.
    pub fn new(alloc: Global, n: u32) -> Result<Self, Mem>
        ensures { IfOk result (λ s. s ≡ record { n = n; flags = replicate n false }) }
    {
        let suspended = Flags::new(alloc, n as usize)?;
        Ok(Syscore { n, suspended })
    }

    /// What an entry leaves: a part that answered 0 is suspended, one that was resumed is not.
    pub fn note(&mut self, kind: Kind)
        ensures { self.new ≡ syscore_after kind self.old }
    {
        match kind {
            Kind::SyscoreSuspend(x, None) => self.suspended.set(x, true),
            Kind::SyscoreResume(x) => self.suspended.set(x, false),
            _ => (),
        }
    }

    /// The part that is suspended next, the last that is not. None exactly if all are
    /// (`syscore_suspend`).
    pub fn next(&self) -> Option<u32>
        ensures { result ≡ next_suspended self.now }
    {
        last_unset(&self.suspended, self.n)
    }

    /// The part that is resumed next, the first that is suspended. None exactly if none is
    /// (`syscore_resume`).
    #[tactic(auto, using(sleep_model::proofs::Searches::find_is_first))]
    pub fn next_syscore_resumed(&self) -> Option<u32>
        ensures { result ≡ next_resumed self.now }
    {
        first_set(&self.suspended, self.n)
    }

    /// The entry of the part that is suspended next, which answers `r` (`syscore_suspend`). It is for a
    /// caller that has only these parts: the core decides by `next`, and reports the entry by `note`.
    pub fn suspend_turn(&mut self, r: Option<Errno>) -> Kind
        requires { IsSome (next_suspended self.old) }
        ensures kind { suspend_entry r self.old ≡ Some result }
        ensures after { self.new ≡ syscore_after result self.old }
    {
        match self.next() {
            Some(x) => {
                let kind = Kind::SyscoreSuspend(x, r);
                self.note(kind);
                kind
            }
            None => unreachable!(),
        }
    }

    /// The entry of the part that is resumed next. None exactly if none is suspended
    /// (`syscore_resume`). It is for the same callers as `suspend_turn`.
    pub fn resume_turn(&mut self) -> Option<Kind>
        ensures kind { result ≡ resume_entry self.old }
        ensures after { self.new ≡ syscore_after_any result self.old }
    {
        let x = self.next_syscore_resumed()?;
        let kind = Kind::SyscoreResume(x);
        self.note(kind);
        Some(kind)
    }
}

/// The last of the first `n` flags that is not set.
fn last_unset(flags: &Flags, n: u32) -> Option<u32>
    ensures { result ≡ last_where (λ x. not (is_so flags.now x)) (range_with_len 0 n) }
{
    for x in (0..n).rev() {
        if !flags.is_set(x) {
            return Some(x);
        }
    }
    None
}

/// The first of the first `n` flags that is set.
fn first_set(flags: &Flags, n: u32) -> Option<u32>
    ensures { result ≡ find (λ x. is_so flags.now x) (range_with_len 0 n) }
{
    (0..n).find(|x| flags.is_set(*x))
}
