//! How an item leaves a ring after it was read in place.
ghost use Rattle.std.specs.Prelude.{◌≡◌, ◌<◌, ◌++◌, ◌∷◌, [], length};
ghost use Rattle.rtrb.specs.Ring.{received, known_items, SameConsumer};

use rtrb::Consumer;

// Takes the first item that is known to be there out of a ring, and drops it. A function clears its
// locals at its entry, so the item is not a local of the caller.
#[inline(never)]
pub(crate) fn drop_first<T: Drop>(ring: &mut Consumer<T>)
    requires { 0 < length (known_items ring.old) }
    ensures ring { SameConsumer ring.old ring.new }
    ensures dropped { (item : T) × (received ring.new ≡ received ring.old ++ item ∷ []) ×
        (known_items ring.old ≡ item ∷ known_items ring.new) }
{
    let _ = ring.pop_known();
}
