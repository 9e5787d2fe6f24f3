//! What a task that changes links is answered (`drivers/base/core.c`, `device_link_add`).

ghost use Rattle.std.specs.Prelude.{◌≡◌, ◌≤◌, length};
ghost use Rattle.sleep_model.specs.Links.{link_add_due, link_state_due};
ghost use Rattle.sleep_model.specs.Order.{links_at, parents_of};
ghost use Rattle.sleep_state.specs.JournalRooms.{entries};

use crate::state::Core;
use device_links::Links;
use sleep_base::Errno;

impl<'m> Core<'m> {
    /// The links now. There are at most 1,000 devices.
    #[tactic(auto, using(crate::proofs::Linked::few_parents))]
    fn links(&self) -> &Links
        ensures is { result.now ≡ record { parents = parents_of self.now.machine.devices; links = links_at self.now.machine (entries self.now.past) } }
        ensures few { length result.now.parents ≤ 1024 }
    {
        let _core = &self.history;
        self.board().links()
    }

    /// The answer when a link is to be added: EBUSY while an attempt is open, EINVAL if it exists already or
    /// would close a cycle.
    pub(crate) fn link_add_due(&self, supplier: u32, consumer: u32) -> Option<Errno>
        ensures { result ≡ link_add_due self.now.machine (entries self.now.past) supplier consumer }
    {
        let links = self.links();
        if self.is_open() {
            Some(Errno::EBUSY)
        } else if links.is_linked(supplier, consumer) || links.is_dependent(consumer, supplier) {
            Some(Errno::EINVAL)
        } else {
            None
        }
    }

    /// The answer when a link's state is to be set: EBUSY while an attempt is open, ENODEV if there is no
    /// such link.
    pub(crate) fn link_state_due(&self, supplier: u32, consumer: u32) -> Option<Errno>
        ensures { result ≡ link_state_due self.now.machine (entries self.now.past) supplier consumer }
    {
        if self.is_open() {
            Some(Errno::EBUSY)
        } else if self.links().is_linked(supplier, consumer) {
            None
        } else {
            Some(Errno::ENODEV)
        }
    }
}
