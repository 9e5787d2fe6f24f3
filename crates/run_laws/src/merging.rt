//! What the lists that several hands keep apart say of their one log. Each premise is of one list, of
//! one actor or of one jump, as its keeper knows it.

ghost use Rattle.run_laws.specs.Fitting.{FitsTogether, ListsMerge};
ghost use Rattle.run_laws.specs.Merging.{MergesToFinished, MergesToLegal, MergesToStuck};
ghost use Rattle.run_laws.specs.Owned.{OwnListsAreOwnEntries};

/// If the lists of journal, histories and actors fit, the journal and each source are legal by themselves,
/// and each actor's entries are its steps, the merge is a legal log. At each jump nobody may be enabled on
/// the journal, the histories and the word that its maker held. If the run is over by the journal, the
/// histories and the last word, it is a finished or a stuck one.
pub fn lists_merge_to_a_legal_log()
    ensures { ListsMerge }
{}

/// Lists fit together if each shows it by itself: each has only its own entries and rises, and so does what
/// each actor made. The steps of the word have positions without a gap and chain. Each look saw a word
/// between two of them, and each entry has its tick and its time to each jump.
pub fn lists_fit_together()
    ensures { FitsTogether }
{}

/// What an actor has of its entries, in the order of its ticks, is what the journal and the histories
/// have of it, in the order of their stamps.
pub fn own_lists_are_own_entries()
    ensures { OwnListsAreOwnEntries }
{}

/// If the lists fit together, and each is legal by itself, the merge is a legal log.
pub fn merges_to_a_legal_log()
    ensures { MergesToLegal }
{}

/// If the run is over by the journal, the histories and the last word, the merge is a finished log.
pub fn merges_to_a_finished_log()
    ensures { MergesToFinished }
{}

/// If nobody goes on by them, the merge is a stuck log, which says for whom and why.
pub fn merges_to_a_stuck_log()
    ensures { MergesToStuck }
{}
