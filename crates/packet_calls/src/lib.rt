// The calls by which tasks claim, drop, send and wait for packets, each as an attempt and an answer made of its outcome.
#![tactic(auto)]

ghost use Rattle.std.specs.Prelude.{◌≡◌};
ghost use Rattle.tables.specs.View.{view};
ghost use Rattle.calls.specs.declared.Call.TheVariants.{Claim as claim_call, Drop as drop_call, Send as send_call, Wait as wait_call};
ghost use Rattle.calls.specs.Steps.{Steps, Comes};

use calls::answers::answer;
use calls::questions::{caller, packet_in_hand, receiver, runner};
use calls::{Answer, Refusal};
use tables::store::Tables;
use tasks::rows::Condition;

fn try_claim(tables: &mut Tables) -> Result<u32, Refusal>
    ensures { Comes (view tables.old) claim_call result (view tables.new) }
{
    let t = caller(tables)?;
    let n = tables.first_free().ok_or(Refusal::NoPacketFree)?;
    tables.take_free(t.get());
    Ok(n.into())
}

// The running task gets the first free packet.
pub fn claim(tables: &mut Tables) -> Answer
    ensures { Steps (view tables.old) claim_call result (view tables.new) }
{
    let outcome = try_claim(tables);
    answer(tables, outcome)
}

fn try_drop(tables: &mut Tables, packet: u32) -> Result<u32, Refusal>
    ensures { Comes (view tables.old) (drop_call packet) result (view tables.new) }
{
    let n = packet_in_hand(tables, packet)?;
    tables.put_free(n);
    Ok(0)
}

// The running task frees a packet that is in its hands.
pub fn drop_packet(tables: &mut Tables, packet: u32) -> Answer
    ensures { Steps (view tables.old) (drop_call packet) result (view tables.new) }
{
    let outcome = try_drop(tables, packet);
    answer(tables, outcome)
}

fn try_send(
    tables: &mut Tables,
    address: i32,
    packet: u32,
    kind: u32,
    first: u32,
    second: u32,
) -> Result<u32, Refusal>
    ensures { Comes (view tables.old) (send_call address packet kind first second) result (view tables.new) }
{
    let n = packet_in_hand(tables, packet)?;
    let to = receiver(tables, address)?;
    let sender = i32::from(tables.running());
    tables.to_queue(n, to, sender, kind, first, second);
    Ok(0)
}

// The running task sends a packet that is in its hands: to a task, or to the unit of the opposite sign. No unit is there yet.
pub fn send(
    tables: &mut Tables,
    address: i32,
    packet: u32,
    kind: u32,
    first: u32,
    second: u32,
) -> Answer
    ensures { Steps (view tables.old) (send_call address packet kind first second) result (view tables.new) }
{
    let outcome = try_send(tables, address, packet, kind, first, second);
    answer(tables, outcome)
}

fn try_wait(tables: &mut Tables) -> Result<u32, Refusal>
    ensures { Comes (view tables.old) wait_call result (view tables.new) }
{
    let t = runner(tables)?;
    match tables.first_queued(t) {
        Some(n) => {
            tables.take_queued(t);
            tables.set_condition(t.get(), Condition::Ready);
            Ok(n.into())
        }
        None => {
            tables.set_condition(t.get(), Condition::Waiting);
            Ok(0)
        }
    }
}

// The running task waits: it takes the first packet on its queue, or else is waiting.
pub fn wait(tables: &mut Tables) -> Answer
    ensures { Steps (view tables.old) wait_call result (view tables.new) }
{
    let outcome = try_wait(tables);
    answer(tables, outcome)
}
