//! Room for one more link in all tables of links.

ghost use Rattle.std.specs.Prelude.{◌≡◌, ◌<◌, OnOk, length, vec_len, vec_capacity};
ghost use Rattle.device_links.specs.Invariant.{LinkHasRoom};
ghost use Rattle.device_links.specs.Rooms.{AreRoomier, HaveEnds, HaveRoom};

use crate::numbers::LinkNumbers;
use crate::seen::Tables;
use sleep_base::Mem;
use sleep_model::Link;

/// Makes room for one more link among the links, in their tables and among their numbers. `Mem` if there is
/// no memory for it; what they say is then as before.
pub(crate) fn make_room(
    links: &mut Vec<Link>,
    tables: &mut Tables,
    numbers: &mut LinkNumbers,
    link: Link,
) -> Result<(), Mem>
    requires ends { HaveEnds link tables.old }
    requires supplier { link.supplier < length numbers.old.by_supplier.rows }
    requires consumer { link.consumer < length numbers.old.by_consumer.rows }
    ensures links { links.new.items ≡ links.old.items }
    ensures tables { AreRoomier tables.old tables.new }
    ensures by_supplier { numbers.new.by_supplier.rows ≡ numbers.old.by_supplier.rows }
    ensures by_consumer { numbers.new.by_consumer.rows ≡ numbers.old.by_consumer.rows }
    ensures place { OnOk result (vec_len links.new < vec_capacity links.new) }
    ensures room { OnOk result (HaveRoom link tables.new) }
    ensures numbers { OnOk result (LinkHasRoom link numbers.new.by_supplier numbers.new.by_consumer) }
{
    links.reserve(1)?;
    tables.make_room(link)?;
    numbers.make_room(link)
}
