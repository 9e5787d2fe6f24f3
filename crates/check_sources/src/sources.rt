//! The account of all sources of a machine.

use crate::source::{Source, fresh, source_after, source_in};
use sleep_base::Mem;
use sleep_model::Entry;
use std::alloc::Global;
use std::marker::Model;

/// All sources of a machine, `autosleep` last: contracts see the account of each.
#[derive(Drop)]
pub struct SourceAccounts {
    sources: Vec<Source>,
}

impl Model for SourceAccounts {
    ghost use Rattle.std.specs.Prelude.{List};
    ghost use Rattle.check_sources.specs.declared.source.Source.{Source};

    ghost Value = { List Source };

    ghost view = { λ a. a.sources.items };
}

impl SourceAccounts {
    ghost use Rattle.std.specs.Prelude.{◌≡◌, [], length, slice_index_or, IfOk, OnOk};
    ghost use Rattle.check_sources.specs.SourceStates.{source_of, sources, sources_after};

    /// So many sources, none of which has an entry. `Mem` if there is no memory for them.
    pub fn new(alloc: Global, count: usize) -> Result<Self, Mem>
        ensures { IfOk result (λ a. a ≡ sources count []) }
    {
        Ok(SourceAccounts {
            sources: vec![in alloc; fresh(); count]?,
        })
    }

    /// Passes one more entry, whatever it is. `Mem` if a counter has no room.
    pub fn pass(&mut self, e: Entry) -> Result<(), Mem>
        ensures { OnOk result (self.new ≡ sources_after e self.old) }
    {
        if let Some(source) = source_in(e.kind) {
            if (source as usize) < self.sources.len() {
                let after = source_after(e, self.sources[source as usize])?;
                self.sources[source as usize] = after;
            }
        }
        Ok(())
    }

    /// How many sources there are.
    pub fn len(&self) -> usize
        ensures { result ≡ length self.now }
    {
        self.sources.len()
    }

    /// The state of a source; that of a new one if it is not registered.
    pub fn source(&self, number: u32) -> Source
        ensures { result ≡ slice_index_or self.now number (source_of []) }
    {
        if (number as usize) < self.sources.len() {
            self.sources[number as usize]
        } else {
            fresh()
        }
    }
}
