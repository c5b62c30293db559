// What deleting and listing tasks ask of the tables.
ghost use Rattle.std.specs.Prelude.{◌≡◌, length};
ghost use Rattle.chain.specs.Chain.{next};
ghost use Rattle.packets.specs.Places.{any_involves};
ghost use Rattle.tasks.specs.View.{links};
ghost use Rattle.tables.specs.State.{queue};
ghost use Rattle.tables.specs.View.{view};

use super::store::Tables;
use numbers::TaskNumber;
use packets::list::ListNumber;
use tasks::order::Order;

impl Tables {
    // How many packets are queued for task t.
    pub fn queue_length(&self, t: TaskNumber) -> u8
        ensures { result ≡ length (queue (view self.now) t) }
    {
        self.packets.length(ListNumber::queue(t))
    }

    // Whether a packet is in the hands of task t, on its queue, or bears it as sender.
    pub fn involved(&self, t: u8) -> bool
        ensures { result ≡ any_involves t (view self.now).packets }
    {
        self.packets.involves(t)
    }

    // The task after t by falling priority, or 0, as the chain has it.
    pub fn task_after(&self, t: TaskNumber) -> u8
        ensures { result ≡ next (links self.now.tasks) t }
    {
        self.tasks.next(t)
    }

    // The tasks in use by falling priority.
    pub fn order(&self) -> Order<'_>
        ensures { result ≡ (view self.now).order }
    {
        self.tasks.order()
    }
}
