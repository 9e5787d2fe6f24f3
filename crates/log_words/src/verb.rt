//! The first words of what entries say.

ghost use Rattle.std.specs.Prelude.{◌≡◌, bytes_eq};
ghost use Rattle.log_words.specs.Verbs.{verb_of, verb_word};

/// The first word of what an entry says.
#[derive(Clone, Copy)]
pub enum Verb {
    Begin,
    End,
    Prepare,
    Complete,
    Schedule,
    Skip,
    Done,
    Frozen,
    Read,
    Save,
    State,
    Autosleep,
    Sleep,
    SleepD,
    Slept,
    Pass,
    Post,
    Got,
    Exit,
    Runtime,
    Link,
    LinkState,
    Run,
    Saved,
    Unsaved,
    After,
    Again,
    Off,
    Awake,
    Relax,
    Event,
    Expire,
    Start,
    Finish,
    Hard,
    Jump,
    Attempt,
    Over,
    Notify,
    Freeze,
    Froze,
    Thaw,
    Platform,
    Cpu,
    Irqs,
    Syscore,
    Enter,
    Wake,
    Clear,
}

/// Picks one column of the table of verbs: each verb has its word. Those of device phases come first, since
/// a log has most of them.
macro_rules! by_verb {
    (@word $from:expr; $($verb:ident $word:literal;)*) => {
        match $from { $(Verb::$verb => $word,)* }
    };
    (@named $from:expr; $($verb:ident $word:literal;)*) => {
        [$(Verb::$verb),*].iter().copied().find(|verb| verb.is($from))
    };
    ($column:ident of $from:expr) => {
        by_verb! { @$column $from;
            Begin "begin";
            End "end";
            Prepare "prepare";
            Complete "complete";
            Schedule "schedule";
            Skip "skip";
            Done "done";
            Frozen "frozen";
            Read "read";
            Save "save";
            State "state";
            Autosleep "autosleep";
            Sleep "sleep";
            SleepD "sleep_d";
            Slept "slept";
            Pass "pass";
            Post "post";
            Got "got";
            Exit "exit";
            Runtime "runtime";
            Link "link";
            LinkState "link_state";
            Run "run";
            Saved "saved";
            Unsaved "unsaved";
            After "after";
            Again "again";
            Off "off";
            Awake "awake";
            Relax "relax";
            Event "event";
            Expire "expire";
            Start "start";
            Finish "finish";
            Hard "hard";
            Jump "jump";
            Attempt "attempt";
            Over "over";
            Notify "notify";
            Freeze "freeze";
            Froze "froze";
            Thaw "thaw";
            Platform "platform";
            Cpu "cpu";
            Irqs "irqs";
            Syscore "syscore";
            Enter "enter";
            Wake "wake";
            Clear "clear";
        }
    };
}

impl Verb {
    /// The word as a log spells it, such as `link_state`.
    #[inline(always)]
    pub fn word(self) -> &'static str
        ensures { result.now ≡ verb_word self }
    {
        by_verb!(word of self)
    }

    /// Whether these bytes are the word.
    #[inline(always)]
    fn is(self, bytes: &[u8]) -> bool
        ensures { result ≡ bytes_eq bytes.now (verb_word self) }
    {
        bytes == self.word().as_bytes()
    }

    /// The verb whose word these bytes are. None if there is none.
    pub fn of_bytes(bytes: &[u8]) -> Option<Verb>
        ensures { result ≡ verb_of bytes.now }
    {
        by_verb!(named of bytes)
    }
}
