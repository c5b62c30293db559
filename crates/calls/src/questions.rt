// The questions that calls ask before they do anything.
ghost use Rattle.std.specs.Prelude.{◌≡◌, [], ◌∷◌, true, false, cond, Some as Just, None as Nothing, IfOk, OnOk};
ghost use Rattle.chain.specs.Chain.{Row};
ghost use Rattle.std.specs.Result.{result_err};
ghost use Rattle.packets.specs.Places.{handed};
ghost use Rattle.tasks.specs.View.{others_have};
ghost use Rattle.tables.specs.State.{task as task_at, used as in_use, packet as packet_at};
ghost use Rattle.tables.specs.Running.{running};
ghost use Rattle.tables.specs.View.{view};
ghost use Rattle.calls.specs.Questions.{first_no, yes, task_runs, task_known, priority_known, priority_alone, packet_in_hands, caller_asks, task_asks, drop_asks, create_asks, wait_asks, address_asks, task_ready, between};
ghost use Rattle.calls.specs.Steps.{task_of};
ghost use Rattle.calls.specs.declared.Refusal.TheVariants.{BadPriority};

use crate::Refusal;
use numbers::{PacketNumber, TaskNumber};
use packets::rows::Place;
use tables::running::ready;
use tables::store::Tables;
use tasks::rows::Task;

// A task that may be created.
#[derive(Clone, Copy, Debug, PartialEq, Eq)]
pub struct NewTask {
    pub number: TaskNumber,
    pub priority: u16,
}

// Is a task running?
pub fn task_runs(tables: &Tables) -> bool
    ensures { result ≡ yes (view tables.now) task_runs }
{
    tables.runner().is_some()
}

fn is_ready(task: Option<Task>) -> bool
    ensures { result ≡ task_ready task }
{
    task.is_some_and(|task| ready(task.condition))
}

// Is the packet in the hands of the running task?
fn in_hands(tables: &Tables, n: PacketNumber) -> bool
    ensures is { result ≡ yes (view tables.now) (packet_in_hands n) }
    ensures off { result ≡ true → handed (packet_at (view tables.now) n).place ≡ true }
{
    tables.packet(n.get()).place == Place::Hands(tables.running())
}

// The task of that number, if there is one: question 3.
fn task_in_use(tables: &Tables, task: u32) -> Result<TaskNumber, Refusal>
    ensures asked { result_err result ≡ first_no (view tables.now) (task_known task ∷ []) }
    ensures is { IfOk result (λ t. t ≡ task) }
    ensures used { OnOk result (in_use (view tables.now) task ≡ true) }
{
    let t = TaskNumber::try_from(task).map_err(|_| Refusal::NoSuchTask)?;
    if tables.task(t.get()).is_none() {
        return Err(Refusal::NoSuchTask);
    }
    Ok(t)
}

// Does a task have that number?
pub fn task_known(tables: &Tables, t: u32) -> bool
    ensures { result ≡ yes (view tables.now) (task_known t) }
{
    task_in_use(tables, t).is_ok()
}

// The running task: question 1.
pub fn runner(tables: &Tables) -> Result<TaskNumber, Refusal>
    ensures asked { result_err result ≡ first_no (view tables.now) wait_asks }
    ensures is { IfOk result (λ t. t ≡ running (view tables.now)) }
{
    tables.runner().ok_or(Refusal::NoTaskRunning)
}

// The running task, if it may make a call: questions 1 and 2.
pub fn caller(tables: &Tables) -> Result<TaskNumber, Refusal>
    ensures asked { result_err result ≡ first_no (view tables.now) caller_asks }
    ensures is { IfOk result (λ t. t ≡ running (view tables.now)) }
{
    let t = runner(tables)?;
    if !is_ready(tables.task(t.get())) {
        return Err(Refusal::RunnerNotReady);
    }
    Ok(t)
}

// The task, if the running task may call for it: questions 1, 2 and 3.
pub fn known_task(tables: &Tables, task: u32) -> Result<TaskNumber, Refusal>
    ensures asked { result_err result ≡ first_no (view tables.now) (task_asks task) }
    ensures is { IfOk result (λ t. t ≡ task) }
    ensures used { OnOk result (in_use (view tables.now) task ≡ true) }
{
    caller(tables)?;
    task_in_use(tables, task)
}

// The packet, if the running task may hand it on: questions 1, 2, 5 and 6.
pub fn packet_in_hand(tables: &Tables, packet: u32) -> Result<PacketNumber, Refusal>
    ensures asked { result_err result ≡ first_no (view tables.now) (drop_asks packet) }
    ensures is { IfOk result (λ n. n ≡ packet) }
    ensures off { OnOk result (handed (packet_at (view tables.now) packet).place ≡ true) }
{
    caller(tables)?;
    let n = PacketNumber::try_from(packet).map_err(|_| Refusal::NoSuchPacket)?;
    if !in_hands(tables, n) {
        return Err(Refusal::NotInHands);
    }
    Ok(n)
}

// The priority, if it is one: question 7.
fn known_priority(priority: u32) -> Result<u16, Refusal>
    ensures asked { result_err result ≡ cond (between 1 65535 priority) Nothing (Just BadPriority) }
    ensures is { IfOk result (λ p. p ≡ priority) }
{
    match u16::try_from(priority) {
        Ok(priority) if priority >= 1 => Ok(priority),
        _ => Err(Refusal::BadPriority),
    }
}

// The priority, if it is one that no task but t has: questions 7 and 8.
pub fn free_priority(tables: &Tables, t: TaskNumber, priority: u32) -> Result<u16, Refusal>
    ensures asked { result_err result ≡ first_no (view tables.now) (priority_known priority ∷ (priority_alone t priority ∷ [])) }
    ensures is { IfOk result (λ p. p ≡ priority) }
    ensures some { OnOk result (Row 65535 priority) }
    ensures alone { OnOk result (others_have (view tables.now).tasks t priority ≡ false) }
{
    let priority = known_priority(priority)?;
    if tables.priority_taken(t.get(), priority) {
        return Err(Refusal::PriorityTaken);
    }
    Ok(priority)
}

// The task with its priority, if it may be created: questions 3 (the range alone), 9, 7 and 8.
pub fn creatable(tables: &Tables, task: u32, priority: u32) -> Result<NewTask, Refusal>
    ensures asked { result_err result ≡ first_no (view tables.now) (create_asks task priority) }
    ensures number { IfOk result (λ new. new.number ≡ task) }
    ensures priority { IfOk result (λ new. new.priority ≡ priority) }
    ensures some { OnOk result (Row 65535 priority) }
    ensures unused { OnOk result (task_at (view tables.now) task ≡ Nothing) }
    ensures alone { OnOk result (others_have (view tables.now).tasks task priority ≡ false) }
{
    let number = TaskNumber::try_from(task).map_err(|_| Refusal::NoSuchTask)?;
    if tables.task(number.get()).is_some() {
        return Err(Refusal::TaskInUse);
    }
    let priority = free_priority(tables, number, priority)?;
    Ok(NewTask { number, priority })
}

// The task of an address: question 4 where it is a unit's, since no unit is there yet, and else question 3.
pub fn receiver(tables: &Tables, address: i32) -> Result<TaskNumber, Refusal>
    ensures asked { result_err result ≡ first_no (view tables.now) (address_asks address ∷ []) }
    ensures is { IfOk result (λ t. t ≡ task_of address) }
    ensures used { OnOk result (in_use (view tables.now) (task_of address) ≡ true) }
{
    let task = u32::try_from(address).map_err(|_| Refusal::NoSuchUnit)?;
    task_in_use(tables, task)
}
