//! The table of the phases, a row for each.
ghost use Rattle.std.specs.Prelude.{◌≡◌};
ghost use Rattle.phase_table.specs.Phases.{is_phase, row_with};

use crate::Phase;

/// What a table says of a phase: the phase that undoes it, its direction in the order of devices, whether
/// devices go down in it, and whether it tests for a wakeup.
#[derive(Clone, Copy, Debug, PartialEq, Eq)]
pub struct PhaseRow {
    pub phase: Phase,
    pub mirror: Phase,
    pub forward: bool,
    pub down: bool,
    pub checks: bool,
}

/// A table of phases, a row for each.
#[derive(Drop)]
pub struct CaseTable<const N: usize> {
    pub rows: [PhaseRow; N],
}

impl<const N: usize> CaseTable<N> {
    /// The first row of that phase. None exactly if no row is of it.
    pub fn row(&self, p: Phase) -> Option<PhaseRow>
        ensures { result ≡ row_with p self.now.rows }
    {
        self.rows.iter().copied().find(|row| is_of(row, p))
    }
}

/// Whether the row is of that phase.
fn is_of(row: &PhaseRow, p: Phase) -> bool
    ensures { result ≡ is_phase row.now.phase p }
{
    row.phase == p
}
