// A kernel that takes calls.
ghost use Rattle.std.specs.Prelude.{◌≡◌};
ghost use Rattle.tables.specs.State.{packet as packet_at};
ghost use Rattle.tables.specs.Running.{running, Greatest};
ghost use Rattle.calls.specs.declared.Call.TheVariants.{Claim as claim_call, Drop as drop_call, Send as send_call, Wait as wait_call};
ghost use Rattle.calls.specs.Steps.{Steps};
ghost use Rattle.kernel.specs.View.{state};

use super::phases::{Kernel, Started, Stopped};
use calls::{Answer, Call};
use packets::rows::{Packet, Place};

impl Kernel<Started> {
    // The runnable task of greatest priority, or 0 where no task is runnable: the number that an answer names.
    pub fn running(&self) -> u8
        ensures is { result ≡ running (state self.now) }
        ensures greatest { Greatest (state self.now) result }
    {
        self.tables.running()
    }

    // The running task gets the first free packet.
    pub fn claim(&mut self) -> Answer
        ensures { Steps (state self.old) claim_call result (state self.new) }
    {
        packet_calls::claim(&mut self.tables)
    }

    // The running task frees a packet that is in its hands.
    pub fn drop_packet(&mut self, packet: u32) -> Answer
        ensures { Steps (state self.old) (drop_call packet) result (state self.new) }
    {
        packet_calls::drop_packet(&mut self.tables, packet)
    }

    // The running task sends a packet that is in its hands: to a task, or to the unit of the opposite sign. No unit is there yet.
    pub fn send(&mut self, address: i32, packet: u32, kind: u32, first: u32, second: u32) -> Answer
        ensures { Steps (state self.old) (send_call address packet kind first second) result (state self.new) }
    {
        packet_calls::send(&mut self.tables, address, packet, kind, first, second)
    }

    // The running task waits: it takes the first packet on its queue, or else is waiting.
    pub fn wait(&mut self) -> Answer
        ensures { Steps (state self.old) wait_call result (state self.new) }
    {
        packet_calls::wait(&mut self.tables)
    }

    // Makes a call. A call that is refused changes nothing. Calls have arguments of their own kinds, so this is a match and no table.
    pub fn call(&mut self, call: Call) -> Answer
        ensures { Steps (state self.old) call result (state self.new) }
    {
        match call {
            Call::Create { task, priority } => task_calls::create(&mut self.tables, task, priority),
            Call::Delete { task } => task_calls::delete(&mut self.tables, task),
            Call::ChangePriority { task, priority } => {
                task_calls::change_priority(&mut self.tables, task, priority)
            }
            Call::Hold { task } => task_calls::hold(&mut self.tables, task),
            Call::Release { task } => task_calls::release(&mut self.tables, task),
            Call::SetFlags { task, bits } => task_calls::set_flags(&mut self.tables, task, bits),
            Call::TestFlags { bits } => task_calls::test_flags(&mut self.tables, bits),
            Call::Claim => self.claim(),
            Call::Drop { packet } => self.drop_packet(packet),
            Call::Send {
                address,
                packet,
                kind,
                first,
                second,
            } => self.send(address, packet, kind, first, second),
            Call::Wait => self.wait(),
        }
    }

    // The fields of a packet; a number that no packet has shows a free one with every field 0.
    pub fn look(&self, packet: u32) -> Packet
        ensures { result ≡ packet_at (state self.now) packet }
    {
        u8::try_from(packet).map_or(Packet::blank(Place::Free), |n| self.tables.packet(n))
    }

    // Calls end.
    pub fn stop(self) -> Kernel<Stopped>
        ensures { state result ≡ state self }
    {
        let Kernel { tables, phase: _ } = self;
        Kernel::with(tables)
    }
}
