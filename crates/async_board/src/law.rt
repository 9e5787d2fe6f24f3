//! What a board answers of a machine, only from the definitions.

ghost use Rattle.std.specs.Prelude.{◌≡◌, ◌∷◌, [], List, map, reverse};
ghost use Rattle.sleep_model.specs.declared.entry.Entry.{Entry};
ghost use Rattle.sleep_model.specs.declared.machine.Machine.{Machine};
ghost use Rattle.sleep_model.specs.Order.{links_after, links_at, parents_of};
ghost use Rattle.sleep_model.specs.Runtime.{is_async};
ghost use Rattle.async_board.specs.Boards.{first_board, board_after};
ghost use Rattle.async_board.specs.AtPoints.{board_at, BoardAgrees};

/// A board that is wired for a machine and notes each entry is the board after these entries, as long as no
/// link changes, and answers what the definitions say.
#[tactic(auto, using(crate::proofs::Agreement::board_first, crate::proofs::Agreement::board_next))]
pub fn board_agrees()
    ensures first { (m : Machine) → first_board (parents_of m.devices) (reverse m.links)
        (map is_async m.devices) ≡ board_at m [] }
    ensures next { (m : Machine) (past : List Entry) (e : Entry) →
        links_after e.kind (links_at m past) ≡ links_at m past →
        board_after e.kind (board_at m past) ≡ board_at m (e ∷ past) }
    ensures agrees { (m : Machine) (past : List Entry) → BoardAgrees m past (board_at m past) }
{}
