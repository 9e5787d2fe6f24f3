//! The state of each device, for each phase and its mirror.

ghost use Rattle.std.specs.Prelude.{◌≡◌};

use crate::phase_states::{move_state, two_unprepared};
use phase_table::Phase;
use sleep_base::Mem;
use sleep_model::{Kind, PhaseState};
use std::alloc::Global;
use std::marker::Model;

/// A list of states for each phase, whose mirror shares them.
#[derive(Drop)]
pub struct PairStates {
    prepare: Vec<PhaseState>,
    suspend: Vec<PhaseState>,
    late: Vec<PhaseState>,
    noirq: Vec<PhaseState>,
    syscore: Vec<PhaseState>,
    syscore_resume: Vec<PhaseState>,
    resume_noirq: Vec<PhaseState>,
    early: Vec<PhaseState>,
    resume: Vec<PhaseState>,
    complete: Vec<PhaseState>,
}

impl Model for PairStates {
    ghost use Rattle.check_account.specs.PairStates.{PairStatesSeen};

    ghost Value = { PairStatesSeen };

    ghost view = { λ b. record {
      prepare = b.prepare.items;
      suspend = b.suspend.items;
      late = b.late.items;
      noirq = b.noirq.items;
      syscore = b.syscore.items;
      syscore_resume = b.syscore_resume.items;
      resume_noirq = b.resume_noirq.items;
      early = b.early.items;
      resume = b.resume.items;
      complete = b.complete.items;
    } };
}

impl PairStates {
    ghost use Rattle.std.specs.Prelude.{◌≡◌, [], IfOk, replicate};
    ghost use Rattle.sleep_model.specs.PhaseStates.{state_at};
    ghost use Rattle.sleep_model.specs.declared.progress.PhaseState.TheVariants as state;
    ghost use Rattle.check_account.specs.PairStates.{pairs_after, pairs_of, states_on};

    /// `count` devices, none of which is prepared. `Mem` if there is no memory for the devices.
    pub fn new(alloc: Global, count: usize) -> Result<Self, Mem>
        ensures { IfOk result (λ b. b ≡ pairs_of count []) }
    {
        let (prepare, suspend) = two_unprepared(alloc, count)?;
        let (late, noirq) = two_unprepared(alloc, count)?;
        let (syscore, syscore_resume) = two_unprepared(alloc, count)?;
        let (resume_noirq, early) = two_unprepared(alloc, count)?;
        let (resume, complete) = two_unprepared(alloc, count)?;
        Ok(PairStates {
            prepare,
            suspend,
            late,
            noirq,
            syscore,
            syscore_resume,
            resume_noirq,
            early,
            resume,
            complete,
        })
    }

    /// An entry moves its own device.
    pub fn pass(&mut self, kind: Kind, device: Option<u32>)
        ensures { self.new ≡ pairs_after kind device self.old }
    {
        move_state(&mut self.prepare, Phase::Prepare, &kind, device);
        move_state(&mut self.suspend, Phase::Suspend, &kind, device);
        move_state(&mut self.late, Phase::Late, &kind, device);
        move_state(&mut self.noirq, Phase::Noirq, &kind, device);
        move_state(&mut self.syscore, Phase::Syscore, &kind, device);
        move_state(
            &mut self.syscore_resume,
            Phase::SyscoreResume,
            &kind,
            device,
        );
        move_state(&mut self.resume_noirq, Phase::ResumeNoirq, &kind, device);
        move_state(&mut self.early, Phase::Early, &kind, device);
        move_state(&mut self.resume, Phase::Resume, &kind, device);
        move_state(&mut self.complete, Phase::Complete, &kind, device);
    }

    /// The state of each device in a phase and its mirror.
    pub fn phase_states(&self, phase: Phase) -> &[PhaseState]
        ensures { result.now ≡ states_on self.now phase }
    {
        match phase {
            Phase::Prepare => &self.prepare,
            Phase::Suspend => &self.suspend,
            Phase::Late => &self.late,
            Phase::Noirq => &self.noirq,
            Phase::Syscore => &self.syscore,
            Phase::SyscoreResume => &self.syscore_resume,
            Phase::ResumeNoirq => &self.resume_noirq,
            Phase::Early => &self.early,
            Phase::Resume => &self.resume,
            Phase::Complete => &self.complete,
        }
    }

    /// The state of a device in a phase and its mirror; unprepared if there is no such device.
    pub fn state(&self, phase: Phase, device: u32) -> PhaseState
        ensures { result ≡ state_at (states_on self.now phase) device }
    {
        let phase_states = self.phase_states(phase);
        if (device as usize) < phase_states.len() {
            phase_states[device as usize]
        } else {
            PhaseState::Unprepared
        }
    }
}
