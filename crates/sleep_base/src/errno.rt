//! The error numbers of the kernel and their names.
ghost use Rattle.std.specs.Prelude.{◌≡◌, ◌≢◌, IfSome, IfNone, bytes_eq};
ghost use Rattle.sleep_base.specs.declared.errno.Errno.{Errno};
ghost use Rattle.sleep_base.specs.Errno.{number_of, name_of, error_named, error_of_number};

/// An error of the kernel that a callback, a test or a write can answer
/// (`include/uapi/asm-generic/errno-base.h`).
#[derive(Clone, Copy, Debug, PartialEq, Eq)]
pub enum Errno {
    EINTR,
    EIO,
    EAGAIN,
    EACCES,
    EBUSY,
    ENODEV,
    EINVAL,
}

/// Picks one column of the table of errors: each error has its number and its name.
macro_rules! by_error {
    (@number $from:expr; $($error:ident $number:tt $name:literal;)*) => {
        match $from { $(Errno::$error => $number,)* }
    };
    (@name $from:expr; $($error:ident $number:tt $name:literal;)*) => {
        match $from { $(Errno::$error => $name,)* }
    };
    (@answered $from:expr; $($error:ident $number:tt $name:literal;)*) => {
        match $from { $(-$number => Some(Errno::$error),)* _ => None }
    };
    (@named $from:expr; $($error:ident $number:tt $name:literal;)*) => {
        [$(Errno::$error),*].iter().copied().find(|error| error.is_named($from))
    };
    ($column:ident of $from:expr) => {
        by_error! { @$column $from;
            EINTR 4 "EINTR";
            EIO 5 "EIO";
            EAGAIN 11 "EAGAIN";
            EACCES 13 "EACCES";
            EBUSY 16 "EBUSY";
            ENODEV 19 "ENODEV";
            EINVAL 22 "EINVAL";
        }
    };
}

impl Errno {
    /// The number that Linux gives the error, 4 to 22.
    pub fn number(self) -> u8
        ensures { result ≡ number_of self }
    {
        by_error!(number of self)
    }

    /// The error's name as the log and the machine file spell it, such as `EBUSY`.
    pub fn name(self) -> &'static str
        ensures { result.now ≡ name_of self }
    {
        by_error!(name of self)
    }

    /// Whether these bytes are its name.
    fn is_named(self, bytes: &[u8]) -> bool
        ensures { result ≡ bytes_eq bytes.now (name_of self) }
    {
        bytes == self.name().as_bytes()
    }

    /// The error whose name these bytes are, if there is one.
    fn named(bytes: &[u8]) -> Option<Errno>
        ensures error { result ≡ error_named bytes.now }
        ensures found { IfSome result (λ e. bytes.now ≡ name_of e) }
    {
        by_error!(named of bytes)
    }

    /// The error of that name. None exactly if the text is no error's name.
    pub fn of_name(text: &str) -> Option<Errno>
        ensures error { result ≡ error_named text.now }
        ensures found { IfSome result (λ e. text.now ≡ name_of e) }
        ensures none { IfNone result ((e : Errno) → text.now ≢ name_of e) }
    {
        Errno::of_bytes(text.as_bytes())
    }

    /// The error whose name these bytes are. None exactly if they are no error's name.
    #[tactic(auto, using(crate::proofs::Naming::none_named))]
    pub fn of_bytes(bytes: &[u8]) -> Option<Errno>
        ensures error { result ≡ error_named bytes.now }
        ensures found { IfSome result (λ e. bytes.now ≡ name_of e) }
        ensures none { IfNone result ((e : Errno) → bytes.now ≢ name_of e) }
    {
        Errno::named(bytes)
    }

    /// The error that a callback's answer means: one below 0. None for 0 and above, and for a number
    /// of no error that callbacks know.
    pub fn of_answer(answer: i32) -> Option<Errno>
        ensures { result ≡ error_of_number answer }
    {
        by_error!(answered of answer)
    }
}
