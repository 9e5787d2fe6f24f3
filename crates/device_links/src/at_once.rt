//! The tables of links that are made at once.

ghost use Rattle.std.specs.Prelude.{◌≡◌, ◌<◌, ◌^◌, [], IfOk, OnOk, length, reverse};
ghost use Rattle.sleep_model.specs.Order.{EachAfterParent};
ghost use Rattle.link_rows.specs.Rows.{IsPushed};
ghost use Rattle.device_links.specs.Passes.{AreTables, HaveRows, IsHung, IsNew, Tabulates, Decides};

use crate::seen::{Tables, without_links};
use device_rows::Rows;
use link_rows::{dependents_of, is_left_out, push_and_reserve, room_for};
use sleep_base::Mem;
use sleep_model::Link;
use std::alloc::Global;

/// Whether the link is between two of the first `count` devices, and not there already.
fn is_new(count: usize, suppliers: &Rows, link: Link) -> bool
    ensures { Decides result (IsNew count suppliers.now link) }
{
    if link.supplier as usize >= count || link.consumer as usize >= count {
        return false;
    }
    !suppliers.row(link.consumer).contains(&link.supplier)
}

/// Puts a link after the others.
fn hang_link(parents: &[Option<u32>], tables: &mut Tables, link: Link) -> Result<(), Mem>
    requires sized { HaveRows (length parents.now) tables.old }
    requires supplier { link.supplier < length parents.now }
    requires consumer { link.consumer < length parents.now }
    ensures { OnOk result (IsHung parents.now link tables.old tables.new) }
{
    let Link {
        supplier,
        consumer,
        ..
    } = link;
    dependents_of(&mut tables.dependents, Some(supplier), consumer)?;
    dependents_of(&mut tables.suppliers, Some(consumer), supplier)?;
    let left_out = is_left_out(parents, link);
    let below = room_for(&tables.dependents, supplier);
    let above = room_for(&tables.suppliers, consumer);
    push_and_reserve(&mut tables.below, left_out, supplier, consumer, below)?;
    push_and_reserve(&mut tables.above, left_out, consumer, supplier, above)?;
    Ok(())
}

/// The tables of these links. None exactly if one of them is there twice, or an end of it is no device.
pub(crate) fn tables_of(
    alloc: Global,
    parents: &[Option<u32>],
    links: &[Link],
) -> Result<Option<Tables>, Mem>
    requires numbered { length parents.now < 2 ^ 32 }
    requires after { EachAfterParent 0 parents.now }
    ensures { IfOk result (Tabulates parents.now (reverse links.now)) }
{
    let mut tables = without_links(alloc, parents)?;
    for link in links {
        if !is_new(parents.len(), &tables.suppliers, *link) {
            return Ok(None);
        }
        hang_link(parents, &mut tables, *link)?;
    }
    Ok(Some(tables))
}
