// What the packet table holds.
ghost use Rattle.std.specs.Prelude.{◌≡◌, map, length};
ghost use Rattle.chain.specs.Lists.{AllEnd, Stand};
ghost use Rattle.packets.specs.Places.{stands, place_at};

use super::rows::Packet;
use chain::Linked;

// Fixed tables, since a kernel takes no memory once it is there. Packets 1 to 64. The list from heads[0] has the free ones, and that from heads[t] the queue of task t.
#[derive(Clone, Copy)]
pub struct PacketTable {
    pub(crate) rows: [Linked<Packet>; 64],
    pub(crate) heads: [u8; 33],
    ghost sized: { (length rows ≡ 64) × (length heads ≡ 33) },
    // Every list ends.
    ghost ends: { AllEnd heads (map (λ r. r.next) rows) },
    // A free or queued packet stands once on the list of its place and on no other, and a packet in hands on none.
    ghost placed: { Stand heads (map (λ r. r.next) rows) (λ n i. stands (place_at (map (λ r. r.item.place) rows) n) i) },
}
