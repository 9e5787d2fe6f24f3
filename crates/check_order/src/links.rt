//! The links of each device, found by their indices among all links.

ghost use Rattle.std.specs.Prelude.{◌≡◌, ◌++◌, ◌==◌, false, MatchOption, OnOk, map, reverse};
ghost use Rattle.sleep_model.specs.Order.{active_of, consumers_of, is_link, suppliers_of, with_state};
ghost use Rattle.sleep_model.specs.Links.{is_linked};
ghost use Rattle.check_order.specs.Graphs.{StandsAt, places_of};

use crate::tables::push_if;
use sleep_base::Mem;
use sleep_model::Link;

/// Whether the link is between these two.
fn is_link(link: Link, supplier: u32, consumer: u32) -> bool
    ensures { result ≡ is_link supplier consumer link }
{
    link.supplier == supplier && link.consumer == consumer
}

/// The link, with the state of the changed one if it is between the same two.
fn with_state(link: Link, changed: Link) -> Link
    ensures { result ≡ with_state changed.supplier changed.consumer changed.active link }
{
    if is_link(link, changed.supplier, changed.consumer) {
        Link {
            supplier: link.supplier,
            consumer: link.consumer,
            active: changed.active,
        }
    } else {
        link
    }
}

/// The index of the link between these two, looked for among those of the consumer's links. None exactly if
/// there is no such link.
pub(crate) fn place_of(
    links: &[Link],
    places: &[u32],
    supplier: u32,
    consumer: u32,
) -> Option<usize>
    requires { places.now ≡ places_of (λ l. l.consumer == consumer) (reverse links.now) }
    ensures { MatchOption result (is_linked (reverse links.now) supplier consumer ≡ false)
        (StandsAt supplier consumer links.now) }
{
    for place in places {
        let place = *place as usize;
        if is_link(links[place], supplier, consumer) {
            return Some(place);
        }
    }
    None
}

/// Puts after a row the consumers of the changed link's supplier by active links, whose indices these are.
pub(crate) fn push_consumers(
    row: &mut Vec<u32>,
    links: &[Link],
    places: &[u32],
    changed: Link,
) -> Result<(), Mem>
    requires { places.now ≡ places_of (λ l. l.supplier == changed.supplier) (reverse links.now) }
    ensures { OnOk result (row.new.items ≡ row.old.items ++ consumers_of changed.supplier
        (active_of (map (with_state changed.supplier changed.consumer changed.active) (reverse links.now)))) }
{
    for place in places {
        let link = with_state(links[*place as usize], changed);
        push_if(row, link.active, link.consumer)?;
    }
    Ok(())
}

/// Puts after a row the suppliers of the changed link's consumer by active links, whose indices these are.
pub(crate) fn push_suppliers(
    row: &mut Vec<u32>,
    links: &[Link],
    places: &[u32],
    changed: Link,
) -> Result<(), Mem>
    requires { places.now ≡ places_of (λ l. l.consumer == changed.consumer) (reverse links.now) }
    ensures { OnOk result (row.new.items ≡ row.old.items ++ suppliers_of changed.consumer
        (active_of (map (with_state changed.supplier changed.consumer changed.active) (reverse links.now)))) }
{
    for place in places {
        let link = with_state(links[*place as usize], changed);
        push_if(row, link.active, link.supplier)?;
    }
    Ok(())
}
