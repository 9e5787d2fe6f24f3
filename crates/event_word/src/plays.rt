//! The rule of the table, and what each step shows.
ghost use Rattle.sleep_model.specs.declared.word.WordKind.TheVariants as kind;
ghost use Rattle.event_word.specs.Counting.{TableInvariant, look_view, with_one_source, source_view, took_in, spent, steps_by, looks};

use crate::view::WordView;
use atomic_table::{Join, Play, Split, TableRule};

/// The table's rule.
pub struct Counting;

impl TableRule<(), WordView, ()> for Counting {
    ghost holds = { λ _. TableInvariant };

    ghost first = { λ _. look_view };
}

/// A seat looks at the word.
pub(crate) struct Look;

impl Play<(), WordView> for Look {
    ghost then = { looks };
}

/// An event begins.
pub(crate) struct Start;

impl Play<(), WordView> for Start {
    ghost then = { steps_by kind.Start };
}

/// An event in progress is registered.
pub(crate) struct Finish;

impl Play<(), WordView> for Finish {
    ghost then = { steps_by kind.Finish };
}

/// A hard event is counted.
pub(crate) struct Hard;

impl Play<(), WordView> for Hard {
    ghost then = { steps_by kind.Hard };
}

/// A new source's seat comes from the seat that only looks.
pub(crate) struct NewSource;

impl Split<WordView> for NewSource {
    ghost left = { λ v. with_one_source v };

    ghost right = { λ v. source_view v.next };
}

/// A source's seat comes back to the seat that only looks.
pub(crate) struct SourceBack;

impl Join<WordView> for SourceBack {
    ghost both = { took_in };

    ghost spent = { spent };
}
