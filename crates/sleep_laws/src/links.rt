//! The laws of links that change between attempts.

ghost use Rattle.sleep_laws.specs.Laws.{HoldsAtEntries};
ghost use Rattle.sleep_laws.specs.Linked.{LinksStay, AllInOrder};

/// While an attempt is open the links stay as they are, and so does the order of devices
/// (`drivers/base/core.c`, `device_link_add`; that a link is refused then is our own).
#[tactic(auto, using(crate::proofs::Staying::links_stay))]
pub fn links_stay_through_attempts()
    ensures { HoldsAtEntries LinksStay }
{}

/// At each point each device is once in the order, before all that hang below it by the parents and the
/// links, dormant ones too (`drivers/base/core.c`, `device_reorder_to_tail`).
#[tactic(auto, using(crate::proofs::Staying::in_order))]
pub fn order_keeps_dependents_after()
    ensures { AllInOrder }
{}
