//! What a row asks of a library in place of the program.

/// A call of a library.
#[derive(Clone, Copy)]
pub enum LibraryCall {
    /// The laws of what is written and read back are called.
    Laws,
    /// The input is a machine file.
    Machine(MachineCall),
    /// The input is a machine file and, from the next line on, a log of that machine.
    Log(LogCall),
    /// The input is a machine file, and only one actor of the machine has turns.
    Core(CoreCall),
    /// The input is a machine file, of a machine of one script and at most one source. How many turns of two
    /// workers did something in its first burst.
    Burst,
    /// Whether what threads are given may be sent to them.
    Sent,
    /// Whether a source takes each call, through its seat at the event word.
    Seat,
    /// Whether it takes as many calls as it has room for.
    FullSeat,
}

/// What is asked of the machine of a file.
#[derive(Clone, Copy)]
pub enum MachineCall {
    /// The file that is written for it.
    File,
    /// The lines of entries of all sorts, each by itself.
    Entries,
    /// The lines of entries of links, each by itself.
    LinkEntries,
    /// The lines after the entries of a log that is finished.
    Finished,
    /// The lines after the entries of a log whose run is stuck.
    Stuck,
    /// Whether it is the machine that has something in each list.
    Lists,
    /// Whether it is the machine whose links change.
    Changes,
    /// Whether it is the machine with two writers and a callback that reports.
    Shared,
}

/// What is asked of a machine and its log.
#[derive(Clone, Copy)]
pub enum LogCall {
    /// The text that is written for the log.
    Text,
    /// The text that is streamed, over standard output as the row says.
    Stream,
    /// Whether its longest chain is certified, and none without its middle.
    Chain,
}

/// What is asked of the turns of the first script, or of each actor.
#[derive(Clone, Copy)]
pub enum CoreCall {
    /// Whether its attempt enters if no event comes.
    Quiet,
    /// Whether it does over the table of the event word, by as many entries.
    AtTable,
    /// Whether it does if events begin and end between any two turns: the save fails, and no count guards the
    /// attempt.
    Plain,
    /// Whether it is given up if such events come after a save that was answered.
    Guarded,
    /// Whether it is given up if hard events come between any two turns.
    Hard,
    /// Whether its turns end so if no event comes.
    Ends(QuietEnd),
    /// Whether each actor waits for what it should.
    Waits,
}

/// How turns end.
#[derive(Clone, Copy)]
pub enum QuietEnd {
    /// The machine sleeps till its alarm.
    Asleep,
    /// The script is stopped, and so are all.
    Stopped,
    /// The script is stopped, and another is not.
    OneStopped,
}
