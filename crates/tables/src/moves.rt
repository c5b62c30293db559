// What calls read of the tables, and the moves of which they are made.
ghost use Rattle.std.specs.Prelude.{◌≡◌, true, false, slice_get, Some as Just, None as Nothing};
ghost use Rattle.chain.specs.Chain.{first};
ghost use Rattle.packets.specs.Places.{handed};
ghost use Rattle.packets.specs.View.{filled};
ghost use Rattle.tasks.specs.View.{others_have, priority_of, written};
ghost use Rattle.tables.specs.State.{task, used, task_part, packet, free, queue};
ghost use Rattle.tables.specs.Moves.{fresh, with_tasks, take_free, put_free, to_queue, take_queued, add_task, remove_task, set_condition, set_held, set_flags, set_priority};
ghost use Rattle.tables.specs.View.{view};

use super::store::Tables;
use numbers::{PacketNumber, TaskNumber};
use packets::list::ListNumber;
use packets::rows::{Packet, Place};
use packets::table::PacketTable;
use tasks::rows::{Condition, Task};
use tasks::table::TaskTable;

#[tactic(auto, using(crate::proofs::Runs::are_sound))]
impl Tables {
    // No task is in use, and every packet is free.
    pub fn new() -> Tables
        ensures { view result ≡ fresh }
    {
        Tables {
            packets: PacketTable::new(),
            tasks: TaskTable::new(),
        }
    }

    // Task t, if the number is in use.
    pub fn task(&self, t: u8) -> Option<Task>
        ensures { result ≡ task (view self.now) t }
    {
        self.tasks.task(t)
    }

    // The task of greatest priority, if a task is in use.
    pub fn top(&self) -> Option<TaskNumber>
        ensures { result ≡ slice_get (view self.now).order 0 }
    {
        self.tasks.first()
    }

    // Packet n; a number out of range reads as a free packet with every field 0.
    pub fn packet(&self, n: u8) -> Packet
        ensures { result ≡ packet (view self.now) n }
    {
        self.packets.packet(n)
    }

    // Whether a task other than t has the priority.
    pub fn priority_taken(&self, t: u8, priority: u16) -> bool
        ensures { result ≡ others_have (view self.now).tasks t priority }
    {
        self.tasks.taken(t, priority)
    }

    // Whether a packet is free. This and the next three name the list that a caller means; the table has one function for all lists.
    pub fn any_free(&self) -> bool
        ensures { result ≡ filled (free (view self.now)) }
    {
        self.packets.filled(ListNumber::free())
    }

    // The first free packet, if there is one.
    pub fn first_free(&self) -> Option<PacketNumber>
        ensures { result ≡ slice_get (free (view self.now)) 0 }
    {
        self.packets.first(ListNumber::free())
    }

    // Whether a packet is queued for task t.
    pub fn any_queued(&self, t: TaskNumber) -> bool
        ensures { result ≡ filled (queue (view self.now) t) }
    {
        self.packets.filled(ListNumber::queue(t))
    }

    // The first packet on the queue of task t, if there is one.
    pub fn first_queued(&self, t: TaskNumber) -> Option<PacketNumber>
        ensures { result ≡ slice_get (queue (view self.now) t) 0 }
    {
        self.packets.first(ListNumber::queue(t))
    }

    // The first free packet goes into the hands of task t.
    pub fn take_free(&mut self, t: u8)
        requires some { filled (free (view self.old)) ≡ true }
        ensures { view self.new ≡ take_free (view self.old) t }
    {
        let to = Packet::blank(Place::Hands(t));
        self.packets.take_first(ListNumber::free(), to);
    }

    // Packet n, which is in hands, becomes the last of the free ones.
    pub fn put_free(&mut self, n: PacketNumber)
        requires off { handed (packet (view self.old) n).place ≡ true }
        ensures { view self.new ≡ put_free (view self.old) n }
    {
        let to = Packet::blank(Place::Free);
        self.packets.put_last(ListNumber::free(), n, to);
    }

    // Packet n, which is in hands, becomes the last on the queue of task t, with those fields. They come one by one, as a call has
    // them: a struct of them would be made for this call and taken apart here.
    pub fn to_queue(
        &mut self,
        n: PacketNumber,
        t: TaskNumber,
        sender: i32,
        kind: u32,
        first: u32,
        second: u32,
    )
        requires off { handed (packet (view self.old) n).place ≡ true }
        ensures { view self.new ≡ to_queue (view self.old) n t sender kind first second }
    {
        let to = Packet {
            place: Place::Queue(t.get()),
            sender,
            kind,
            first,
            second,
        };
        self.packets.put_last(ListNumber::queue(t), n, to);
    }

    // The first packet on the queue of task t goes into its hands.
    pub fn take_queued(&mut self, t: TaskNumber)
        requires some { filled (queue (view self.old) t) ≡ true }
        ensures { view self.new ≡ take_queued (view self.old) t }
    {
        if let Some(n) = self.first_queued(t) {
            let to = Packet {
                place: Place::Hands(t.get()),
                ..self.packet(n.get())
            };
            self.packets.take_first(ListNumber::queue(t), to);
        }
    }

    // Task t comes into use: dormant, not held, flags 0.
    pub fn add_task(&mut self, t: TaskNumber, priority: u16)
        requires unused { task (view self.old) t ≡ Nothing }
        requires alone { others_have (view self.old).tasks t priority ≡ false }
        ensures { view self.new ≡ add_task (view self.old) t priority }
    {
        let created = Task {
            priority,
            condition: Condition::Dormant,
            held: false,
            flags: 0,
        };
        self.tasks.add(t, created);
    }

    // Task t, which is in use, goes.
    pub fn remove_task(&mut self, t: u8)
        requires used { used (view self.old) t ≡ true }
        ensures { view self.new ≡ remove_task (view self.old) t }
    {
        self.tasks.remove(t);
    }

    // Writes task t, which is in use at the same priority.
    fn write_task(&mut self, t: u8, to: Task)
        requires { priority_of (task (view self.old) t) ≡ Just to.priority }
        ensures { view self.new ≡ with_tasks (view self.old) (written (task_part (view self.old)) t to) }
    {
        self.tasks.write(t, to);
    }

    // Task t gets another condition; a number that is not in use stays so. This one and the next two stay apart: one function that
    // took the change as a closure would need more clauses on the closure than these have lines.
    pub fn set_condition(&mut self, t: u8, condition: Condition)
        ensures { view self.new ≡ set_condition (view self.old) t condition }
    {
        if let Some(task) = self.task(t) {
            self.write_task(t, Task { condition, ..task });
        }
    }

    // Task t becomes held, or not held; a number that is not in use stays so.
    pub fn set_held(&mut self, t: u8, held: bool)
        ensures { view self.new ≡ set_held (view self.old) t held }
    {
        if let Some(task) = self.task(t) {
            self.write_task(t, Task { held, ..task });
        }
    }

    // Task t gets other flags; a number that is not in use stays so.
    pub fn set_flags(&mut self, t: u8, flags: u32)
        ensures { view self.new ≡ set_flags (view self.old) t flags }
    {
        if let Some(task) = self.task(t) {
            self.write_task(t, Task { flags, ..task });
        }
    }

    // Task t gets another priority, and the place in the order that goes with it; a number that is not in use stays so.
    pub fn set_priority(&mut self, t: u8, priority: u16)
        requires alone { others_have (view self.old).tasks t priority ≡ false }
        ensures { view self.new ≡ set_priority (view self.old) t priority }
    {
        if let Some(task) = self.task(t) {
            self.tasks.replace(t, Task { priority, ..task });
        }
    }
}
