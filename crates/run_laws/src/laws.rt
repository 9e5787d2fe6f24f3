//! What the lists of a run by workers say of its one log, from what each keeper knows by itself.

ghost use Rattle.run_laws.specs.Acts.{ActsAreSteps};
ghost use Rattle.run_laws.specs.Called.{CallGrows};
ghost use Rattle.run_laws.specs.Invariant.{InvariantEnds, InvariantGrows, InvariantMerges, InvariantBegins};
ghost use Rattle.run_laws.specs.Jobs.{JobsFollow, JobsWantNext, SettledIsFree};
ghost use Rattle.run_laws.specs.ClosedOver.{LooksLast, TableCovers};
ghost use Rattle.run_laws.specs.Passes.{LogSaysWho};
ghost use Rattle.run_laws.specs.Seated.{SeatAgreesAfterCalls, SeatsCoverTable, WatchAgrees};
ghost use Rattle.run_laws.specs.Turned.{LeapGrows, TurnGrows};

/// The table of the word is closed, each source's seat made the steps of its history, and each look was one
/// of a seat. Then all steps have positions without a gap and chain, each look saw a word between two of
/// them, and the closing answers the last word.
pub fn closed_table_covers_the_word()
    ensures { TableCovers }
{}

/// One more entry, which is its actor's next, leaves each entry of each actor its step. What others add
/// changes nothing of it.
pub fn acts_are_steps()
    ensures { ActsAreSteps }
{}

/// Of nothing made all is known.
pub fn invariant_begins()
    ensures { InvariantBegins }
{}

/// What is known of all that was made is known again after each entry that may be made. What is known of
/// jumps is preserved, each entry stays on its side of each jump, and each list falls on.
pub fn invariant_grows()
    ensures { InvariantGrows }
{}

/// With the closed table of the word, what is known at the end is all that
/// `lists_merge_to_a_legal_log` asks of the journal and the histories.
pub fn invariant_merges()
    ensures { InvariantMerges }
{}

/// If no source's floor is above a look, the look saw the last word.
pub fn last_look_saw_the_last_word()
    ensures { LooksLast }
{}

/// What is known at the end makes the merge a legal log. It is finished if the run is over by all that was
/// made and the last word that was seen, and stuck if nobody goes on.
pub fn invariant_ends()
    ensures { InvariantEnds }
{}

/// The job of an actor follows each entry: another's leaves it, a turn of its own and a call bring it on,
/// and the steps of a call leave it.
pub fn jobs_follow_all_that_was_made()
    ensures { JobsFollow }
{}

/// What a job wants, whose actor is inside no call, is the next that its actor makes.
pub fn jobs_want_what_is_next()
    ensures { JobsWantNext }
{}

/// If no source is owed a step, nobody is inside a call.
pub fn settled_sources_free_all()
    ensures { SettledIsFree }
{}

/// A whole call on a source leaves all known again: its note, and each step after it. It is its caller's
/// next, and knows its own newest entry and each jump.
pub fn calls_keep_all_known()
    ensures { CallGrows }
{}

/// A turn of the machine by an actor that has made all its calls, after what it and the journal last knew,
/// leaves all known again.
pub fn turns_keep_all_known()
    ensures { TurnGrows }
{}

/// A jump of time after all that was made, at which nobody can make anything, leaves all known again.
pub fn jumps_keep_all_known()
    ensures { LeapGrows }
{}

/// A call on a source leaves its seat's steps those of the source, and each note's word one that its seat
/// looked at.
pub fn calls_keep_their_seat()
    ensures { SeatAgreesAfterCalls }
{}

/// An entry of the journal by the word that the machine looked at last leaves each word there one that it
/// looked at.
pub fn turns_keep_the_watch()
    ensures { WatchAgrees }
{}

/// At the closed table, what each source and the machine have besides their seats gives all steps.
pub fn seats_cover_the_table()
    ensures { SeatsCoverTable }
{}

/// If the table of locks is closed, and each pass made entries of one actor only, a journal has gained what
/// the passes made. Of each actor it has what its pass made, each entry with the journal before it.
pub fn log_says_who<V, R>()
    ensures { LogSaysWho V R }
{}
