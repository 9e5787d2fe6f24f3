//! The laws of the table of phases.

ghost use Rattle.std.specs.Prelude.{◌≡◌, not};
ghost use Rattle.phase_table.specs.Phases.{mirror, is_forward, phase_name};

use crate::Phase;

/// A mirror's mirror is the phase.
pub fn mirrors_are_mutual(p: Phase)
    ensures { mirror (mirror p) ≡ p }
{}

/// A phase and its mirror walk opposite ways.
pub fn mirrors_walk_opposite_ways(p: Phase)
    ensures { is_forward (mirror p) ≡ not (is_forward p) }
{}

/// A name is one phase's: what is read of it is that phase.
pub fn names_read_back(p: Phase, q: Phase)
    ensures { phase_name p ≡ phase_name q → p ≡ q }
{}
