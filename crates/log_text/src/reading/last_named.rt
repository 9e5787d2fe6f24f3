//! What lines named last, by which the names of the next one are guessed.

use sleep_model::{Actor, Kind};

/// Who made the last entry, and the last script, device and source that lines named. The next line mostly
/// names one of them; each guess is compared with the line.
#[derive(Clone, Copy)]
pub struct LastNamed {
    pub actor: Actor,
    pub script: u32,
    pub device: u32,
    pub source: u32,
}

impl LastNamed {
    /// Before the first line.
    pub fn first() -> Self {
        LastNamed {
            actor: Actor::Auto,
            script: 0,
            device: 0,
            source: 0,
        }
    }

    /// After a line named that actor.
    #[inline(always)]
    pub fn note_actor(&mut self, actor: Actor) {
        self.actor = actor;
        match actor {
            Actor::Script(script) => self.script = script,
            Actor::Dev(device) => self.device = device,
            Actor::Timer(source) => self.source = source,
            Actor::Auto | Actor::Time => {}
        }
    }

    /// After a line said that.
    #[inline(always)]
    pub fn note_kind(&mut self, kind: Kind) {
        match kind {
            Kind::Prepare { device, .. }
            | Kind::Complete(device)
            | Kind::Schedule(_, device)
            | Kind::Begin(_, device)
            | Kind::End(_, device, _)
            | Kind::Skip(_, device, _) => self.device = device,
            Kind::Event { source, .. }
            | Kind::Start(source)
            | Kind::Hard(source)
            | Kind::Finish(source)
            | Kind::Expire(source) => self.source = source,
            _ => {}
        }
    }
}
