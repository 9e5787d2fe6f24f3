//! Orders of devices that were worked out by hand.

ghost use Rattle.std.specs.Prelude.{◌≡◌, ◌∷◌, []};
ghost use Rattle.sleep_model.specs.Order.{order, below, above};
ghost use Rattle.law_trials.specs.Devices.{first_link_machine, two_links_machine};

/// Each link moves its consumer, with all that depends on it, to the end of the order.
pub fn links_move_their_consumers()
    ensures one { order first_link_machine [] ≡ 0 ∷ 3 ∷ 4 ∷ 1 ∷ 2 ∷ [] }
    ensures two { order two_links_machine [] ≡ 0 ∷ 4 ∷ 3 ∷ 1 ∷ 2 ∷ [] }
    ensures below { below two_links_machine [] 3 ≡ 1 ∷ [] }
    ensures above { above two_links_machine [] 1 ≡ 0 ∷ 3 ∷ [] }
{}
