// The numbers of the packet lists.
ghost use Rattle.std.specs.Prelude.{◌≡◌, ◌<◌};

use numbers::TaskNumber;
use std::marker::Model;

// The free list, or the queue of a task. It is a number and no enum: contracts speak of a list by its number, and an enum cannot be seen
// as one.
#[derive(Clone, Copy, Debug, PartialEq, Eq)]
pub struct ListNumber {
    number: u8,
}

// Seen as the number of the list: 0 for the free packets, and t for the queue of task t.
impl Model for ListNumber {
    ghost use Rattle.std.specs.Prelude.{ℕ, ◌<◌};

    ghost Value = { ℕ };

    ghost view = { λ i. i.number };

    ghost invariant = { λ i. i.number < 33 };

    ghost inverse = { λ i. record { number = i } };
}

impl ListNumber {
    pub fn free() -> ListNumber
        ensures { result ≡ 0 }
    {
        ListNumber { number: 0 }
    }

    pub fn queue(t: TaskNumber) -> ListNumber
        ensures { result ≡ t }
    {
        ListNumber { number: t.get() }
    }

    // Where the head of the list stands.
    pub(crate) fn index(self) -> usize
        ensures is { result ≡ self }
        ensures bound { result < 33 }
    {
        usize::from(self.number)
    }
}
