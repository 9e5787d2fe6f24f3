//! Which links each device has.

ghost use Rattle.std.specs.Prelude.{◌≡◌, ◌<◌, ◌≤◌, [], IfOk, OnOk, Some, length, reverse};
ghost use Rattle.device_rows.specs.Table.{with_number};
ghost use Rattle.device_links.specs.Invariant.{AreNumbered, LinkHasRoom};
ghost use Rattle.device_links.specs.Passes.{AreApart};

use device_rows::Rows;
use sleep_base::Mem;
use sleep_model::Link;
use std::alloc::Global;

/// The numbers of each device's links, the oldest first. A link's number is its index among all links.
#[derive(Drop)]
pub(crate) struct LinkNumbers {
    /// Of the links that the device supplies.
    pub(crate) by_supplier: Rows,
    /// Of the links that the device consumes.
    pub(crate) by_consumer: Rows,
}

impl LinkNumbers {
    /// `count` devices without links.
    pub(crate) fn new(alloc: Global, count: usize) -> Result<LinkNumbers, Mem>
        ensures { IfOk result (λ t. AreNumbered count [] t.by_supplier.rows t.by_consumer.rows) }
    {
        Ok(LinkNumbers {
            by_supplier: Rows::with_rows(alloc, count)?,
            by_consumer: Rows::with_rows(alloc, count)?,
        })
    }

    /// The devices of `parents` with these links.
    pub(crate) fn of_links(
        alloc: Global,
        parents: &[Option<u32>],
        links: &[Link],
    ) -> Result<LinkNumbers, Mem>
        requires few { length links.now ≤ 4000 }
        requires apart { AreApart parents.now (reverse links.now) }
        ensures { IfOk result (λ t. AreNumbered (length parents.now) (reverse links.now) t.by_supplier.rows t.by_consumer.rows) }
    {
        let mut numbers = LinkNumbers::new(alloc, parents.len())?;
        for (number, link) in links.iter().enumerate() {
            numbers.make_room(*link)?;
            numbers.push(*link, number as u32);
        }
        Ok(numbers)
    }

    /// Makes room for one more link. `Mem` if there is no memory for it; all is then as before.
    pub(crate) fn make_room(&mut self, link: Link) -> Result<(), Mem>
        requires supplier { link.supplier < length self.old.by_supplier.rows }
        requires consumer { link.consumer < length self.old.by_consumer.rows }
        ensures by_supplier { self.new.by_supplier.rows ≡ self.old.by_supplier.rows }
        ensures by_consumer { self.new.by_consumer.rows ≡ self.old.by_consumer.rows }
        ensures room { OnOk result (LinkHasRoom link self.new.by_supplier self.new.by_consumer) }
    {
        self.by_supplier.make_room(link.supplier)?;
        self.by_consumer.make_room(link.consumer)?;
        Ok(())
    }

    /// Puts the number of a link, for which there is room, after those of the other links of both its
    /// devices.
    pub(crate) fn push(&mut self, link: Link, number: u32)
        requires { LinkHasRoom link self.old.by_supplier self.old.by_consumer }
        ensures by_supplier { self.new.by_supplier.rows ≡ with_number self.old.by_supplier.rows (Some link.supplier) number }
        ensures by_consumer { self.new.by_consumer.rows ≡ with_number self.old.by_consumer.rows (Some link.consumer) number }
    {
        self.by_supplier.push(link.supplier, number);
        self.by_consumer.push(link.consumer, number);
    }
}
