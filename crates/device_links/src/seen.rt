//! The tables of what is right below and right above each device.

ghost use Rattle.std.specs.Prelude.{◌≡◌, ◌<◌, ◌^◌, [], IfOk, OnOk, length};
ghost use Rattle.sleep_model.specs.Order.{EachAfterParent};
ghost use Rattle.device_links.specs.Passes.{AreTables};
ghost use Rattle.device_links.specs.Rooms.{AreRoomier, HaveEnds, HaveRoom, ArePut};

use device_rows::Rows;
use link_rows::{children_of, parents_of, push_unless, reserve_one, room_for};
use sleep_base::Mem;
use sleep_model::Link;
use std::alloc::Global;

/// What depends directly on the devices, and what they depend on, as `Links` keeps it.
#[derive(Drop)]
pub(crate) struct Tables {
    // Its children before its consumers: what a walk goes over.
    pub(crate) dependents: Rows,
    pub(crate) below: Rows,
    pub(crate) suppliers: Rows,
    pub(crate) above: Rows,
}

/// The tables of devices without links.
pub(crate) fn without_links(alloc: Global, parents: &[Option<u32>]) -> Result<Tables, Mem>
    requires numbered { length parents.now < 2 ^ 32 }
    requires after { EachAfterParent 0 parents.now }
    ensures { IfOk result (AreTables parents.now []) }
{
    Ok(Tables {
        dependents: children_of(alloc, parents)?,
        below: children_of(alloc, parents)?,
        suppliers: Rows::with_rows(alloc, parents.len())?,
        above: parents_of(alloc, parents)?,
    })
}

impl Tables {
    /// Makes room for one more link. `Mem` if there is no memory for it; the rows are then as before.
    pub(crate) fn make_room(&mut self, link: Link) -> Result<(), Mem>
        requires { HaveEnds link self.old }
        ensures kept { AreRoomier self.old self.new }
        ensures room { OnOk result (HaveRoom link self.new) }
    {
        let most_below = room_for(&self.dependents, link.supplier);
        let most_above = room_for(&self.suppliers, link.consumer);
        self.dependents.make_room(link.supplier)?;
        self.suppliers.make_room(link.consumer)?;
        reserve_one(&mut self.below, link.supplier, most_below)?;
        reserve_one(&mut self.above, link.consumer, most_above)
    }

    /// Puts a link, for which there is room, after the others of both its ends; one that is left out is put
    /// neither below nor above.
    pub(crate) fn push(&mut self, link: Link, left_out: bool)
        requires { HaveRoom link self.old }
        ensures { ArePut link left_out self.old self.new }
    {
        self.dependents.push(link.supplier, link.consumer);
        self.suppliers.push(link.consumer, link.supplier);
        push_unless(&mut self.below, left_out, link.supplier, link.consumer);
        push_unless(&mut self.above, left_out, link.consumer, link.supplier);
    }
}
