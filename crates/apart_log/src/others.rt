//! Entries of sources in order, where they are stored (own: Linux keeps no such log).

use log_merge::leads;
use sleep_model::{JournalReader, SourceEntry};

/// Those of one history, or references to those of several.
#[derive(Clone, Copy)]
pub(crate) struct Others<'a> {
    history: &'a [SourceEntry],
    sorted: &'a [&'a SourceEntry],
}

impl<'a> Others<'a> {
    ghost use Rattle.std.specs.Prelude.{◌≡◌, ◌∷◌, [], MatchOption};
    ghost use Rattle.sleep_model.specs.Merge.{of_source};
    ghost use Rattle.apart_log.specs.Merged.{either, is_others_turn, others_of};

    /// The entries of one history, if it has any, else those that are referred to.
    pub(crate) fn of(history: &'a [SourceEntry], sorted: &'a [&'a SourceEntry]) -> Self
        ensures { others_of result ≡ either history.now sorted.now }
    {
        Others { history, sorted }
    }

    /// The first, and those after it. `None` if there are none.
    #[inline(always)]
    pub(crate) fn split_first(self) -> Option<(&'a SourceEntry, Others<'a>)>
        ensures { MatchOption result (others_of self.entry ≡ []) (λ p. others_of self.entry ≡ of_source p.0.now ∷ others_of p.1) }
    {
        let Others { history, sorted } = self;
        if let Some((first, history)) = history.split_first() {
            return Some((first, Others { history, sorted }));
        }
        let (first, sorted) = sorted.split_first()?;
        Some((*first, Others { history, sorted }))
    }

    /// Whether the first comes before all that is left of a journal, or none of both is left.
    #[inline(always)]
    pub(crate) fn are_next(self, journal: &JournalReader<'_>) -> bool
        ensures { result ≡ is_others_turn journal.now (others_of self.entry) }
    {
        match self.split_first() {
            Some((other, _)) => leads(&journal.peek(), other),
            None => journal.peek().is_none(),
        }
    }
}
