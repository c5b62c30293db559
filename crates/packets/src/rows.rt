// Packets.
ghost use Rattle.std.specs.Prelude.{◌≡◌};
ghost use Rattle.packets.specs.Places.{blank};

// Where a packet is; tasks go by their numbers.
#[derive(Clone, Copy, Debug, PartialEq, Eq)]
pub enum Place {
    Free,
    Hands(u8),
    Queue(u8),
}

// A sender is an address, which is a number for whoever looks at a packet: a positive one is a task, 0 is nobody.
#[derive(Clone, Copy, Debug, PartialEq, Eq)]
pub struct Packet {
    pub place: Place,
    pub sender: i32,
    pub kind: u32,
    pub first: u32,
    pub second: u32,
}

impl Packet {
    // A packet of that place with every other field 0.
    pub fn blank(place: Place) -> Packet
        ensures { result ≡ blank place }
    {
        Packet {
            place,
            sender: 0,
            kind: 0,
            first: 0,
            second: 0,
        }
    }
}
