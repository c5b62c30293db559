// The packets with the list of the free ones and the tasks' queues.
#![tactic(auto)]

ghost use Rattle.std.specs.Prelude.{◌≡◌, ◌≤◌, true, length, slice_get, slice_index};
ghost use Rattle.packets.specs.Places.{stands, handed, with_task, from_task, involves, any_involves};
ghost use Rattle.packets.specs.View.{view, packet, list, filled, unplaced, fresh, took_first, put_last};

pub mod list;
pub mod rows;
pub mod table;

use chain::Linked;
use list::ListNumber;
use numbers::PacketNumber;
use rows::{Packet, Place};
use table::PacketTable;

// Whether the place is the hands of task t or its queue.
fn with_task(place: Place, t: u8) -> bool
    ensures { result ≡ with_task t place }
{
    matches!(place, Place::Hands(k) | Place::Queue(k) if k == t)
}

// Whether the sender is task t.
fn from_task(sender: i32, t: u8) -> bool
    ensures { result ≡ from_task t sender }
{
    sender == i32::from(t)
}

// Whether the packet is in the hands of task t, on its queue, or bears it as sender.
fn involves(packet: Packet, t: u8) -> bool
    ensures { result ≡ involves t packet }
{
    with_task(packet.place, t) || from_task(packet.sender, t)
}

impl PacketTable {
    // No packet is on a list yet: each is in the hands of task 0, which is nobody. Of places only hands are on no list, and this is for
    // `free_all` alone.
    fn unplaced() -> PacketTable
        ensures { view result ≡ unplaced }
    {
        let row = Linked {
            item: Packet::blank(Place::Hands(0)),
            next: 0,
        };
        PacketTable {
            rows: [row; 64],
            heads: [0; 33],
        }
    }

    // Puts every packet on the free list.
    #[tactic(auto, using(crate::proofs::Start::off, crate::proofs::Start::more, crate::proofs::Start::all))]
    fn free_all(&mut self)
        requires { view self.old ≡ unplaced }
        ensures { view self.new ≡ fresh }
    {
        for n in 1u8..65 {
            let n = PacketNumber::try_from(n).unwrap();
            self.put_last(ListNumber::free(), n, Packet::blank(Place::Free));
        }
    }

    // Every packet is free, in the order of the numbers.
    pub fn new() -> PacketTable
        ensures { view result ≡ fresh }
    {
        let mut table = PacketTable::unplaced();
        table.free_all();
        table
    }

    // Packet n; a number that no packet has reads as a free one with every field 0.
    pub fn packet(&self, n: u8) -> Packet
        ensures { result ≡ packet (view self.now) n }
    {
        match PacketNumber::try_from(n) {
            Ok(n) => self.rows[n.index()].item,
            Err(_) => Packet::blank(Place::Free),
        }
    }

    // Whether list i has a packet.
    #[tactic(auto, using(crate::proofs::Moves::filled_is))]
    pub fn filled(&self, i: ListNumber) -> bool
        ensures { result ≡ filled (list (view self.now) i) }
    {
        self.heads[i.index()] != 0
    }

    // The first packet of list i, if it has one.
    #[tactic(auto, using(crate::proofs::Moves::first_is))]
    pub fn first(&self, i: ListNumber) -> Option<PacketNumber>
        ensures { result ≡ slice_get (list (view self.now) i) 0 }
    {
        PacketNumber::try_from(self.heads[i.index()]).ok()
    }

    // How many packets are on list i.
    #[tactic(auto, using(crate::proofs::Moves::length_is))]
    pub fn length(&self, i: ListNumber) -> u8
        ensures is { result ≡ length (list (view self.now) i) }
        ensures few { result ≤ 64 }
    {
        chain::count(&self.rows, self.heads[i.index()])
    }

    // Whether a packet is in the hands of task t, on its queue, or bears it as sender.
    pub fn involves(&self, t: u8) -> bool
        ensures { result ≡ any_involves t (view self.now).packets }
    {
        self.rows.iter().any(|row| involves(row.item, t))
    }

    // Takes the first packet off list i, and writes it.
    #[tactic(auto, using(crate::proofs::Moves::first_row, crate::proofs::Moves::take_shape))]
    pub fn take_first(&mut self, i: ListNumber, to: Packet)
        requires some { filled (list (view self.old) i) ≡ true }
        requires off { handed to.place ≡ true }
        ensures { view self.new ≡ took_first (view self.old) i to }
    {
        let i = i.index();
        let head = self.heads[i];
        self.heads[i] = chain::take_first(&mut self.rows, head);
        self.rows[(head - 1) as usize].item = to;
    }

    // Puts packet n last on list i, whose first is `head`, and writes it. It stands apart so that no proof file
    // hides a change of `put_last`.
    #[tactic(auto, using(crate::proofs::Moves::put_outside))]
    fn enlist(&mut self, i: ListNumber, head: u8, n: PacketNumber, to: Packet)
        requires head { head ≡ slice_index self.old.heads i }
        requires off { handed (packet (view self.old) n).place ≡ true }
        requires on { stands to.place i ≡ 1 }
        ensures { view self.new ≡ put_last (view self.old) i n to }
    {
        let i = i.index();
        let n = n.get();
        self.heads[i] = chain::put_last(&mut self.rows, head, n);
        self.rows[(n - 1) as usize].item = to;
    }

    // Puts packet n, which is on no list, last on list i, and writes it. What is asked is said of that packet in the table at the call,
    // so it is in no type.
    pub fn put_last(&mut self, i: ListNumber, n: PacketNumber, to: Packet)
        requires off { handed (packet (view self.old) n).place ≡ true }
        requires on { stands to.place i ≡ 1 }
        ensures { view self.new ≡ put_last (view self.old) i n to }
    {
        let head = self.heads[i.index()];
        self.enlist(i, head, n, to);
    }
}
