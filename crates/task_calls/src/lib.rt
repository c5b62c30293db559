// The calls by which tasks create, delete and change tasks. Each is an attempt, and an answer made of its outcome: one function of both
// would have to take the attempt as a closure over the tables, for two lines.
#![tactic(auto)]

ghost use Rattle.std.specs.Prelude.{◌≡◌, ◌-◌, bit_and, if◌then◌else◌};
ghost use Rattle.tables.specs.State.{task as task_at};
ghost use Rattle.tables.specs.View.{view};
ghost use Rattle.calls.specs.declared.Call.TheVariants.{Create as create_call, Delete as delete_call, ChangePriority as priority_call, Hold as hold_call, Release as release_call, SetFlags as set_call, TestFlags as test_call};
ghost use Rattle.calls.specs.Questions.{yes, task_held, task_idle, task_dormant};
ghost use Rattle.calls.specs.Steps.{Steps, Comes, flags_of};

use calls::answers::answer;
use calls::questions::{caller, creatable, free_priority, known_task};
use calls::{Answer, Refusal};
use numbers::TaskNumber;
use tables::store::Tables;
use tasks::rows::{Condition, Task};

// Is the task held?
fn is_held(tables: &Tables, t: TaskNumber) -> bool
    ensures { result ≡ yes (view tables.now) (task_held t) }
{
    tables.task(t.get()).is_some_and(|task| task.held)
}

fn is_dormant(task: Option<Task>) -> bool
    ensures { result ≡ task_dormant task }
{
    task.is_some_and(|task| task.condition == Condition::Dormant)
}

// Is the task running or dormant?
fn is_idle(tables: &Tables, t: TaskNumber) -> bool
    ensures { result ≡ yes (view tables.now) (task_idle t) }
{
    tables.runner() == Some(t) || is_dormant(tables.task(t.get()))
}

// The flags of task t; a number that is not in use has none.
fn flags(tables: &Tables, t: TaskNumber) -> u32
    ensures { result ≡ flags_of (task_at (view tables.now) t) }
{
    tables.task(t.get()).map_or(0, |task| task.flags)
}

// The flags without those that are among the bits.
fn cleared(flags: u32, bits: u32) -> u32
    ensures { result ≡ flags - bit_and flags bits }
{
    flags - (flags & bits)
}

fn try_create(tables: &mut Tables, task: u32, priority: u32) -> Result<u32, Refusal>
    ensures { Comes (view tables.old) (create_call task priority) result (view tables.new) }
{
    caller(tables)?;
    let new = creatable(tables, task, priority)?;
    tables.add_task(new.number, new.priority);
    Ok(0)
}

// Brings a task into use: dormant, not held, flags 0.
pub fn create(tables: &mut Tables, task: u32, priority: u32) -> Answer
    ensures { Steps (view tables.old) (create_call task priority) result (view tables.new) }
{
    let outcome = try_create(tables, task, priority);
    answer(tables, outcome)
}

fn try_delete(tables: &mut Tables, task: u32) -> Result<u32, Refusal>
    ensures { Comes (view tables.old) (delete_call task) result (view tables.new) }
{
    let t = known_task(tables, task)?;
    if !is_idle(tables, t) {
        return Err(Refusal::TaskNotIdle);
    }
    if tables.involved(t.get()) {
        return Err(Refusal::PacketsOut);
    }
    tables.remove_task(t.get());
    Ok(0)
}

// Deletes a task that is running or dormant, if no packet is with it or bears it as sender.
pub fn delete(tables: &mut Tables, task: u32) -> Answer
    ensures { Steps (view tables.old) (delete_call task) result (view tables.new) }
{
    let outcome = try_delete(tables, task);
    answer(tables, outcome)
}

fn try_change_priority(tables: &mut Tables, task: u32, priority: u32) -> Result<u32, Refusal>
    ensures { Comes (view tables.old) (priority_call task priority) result (view tables.new) }
{
    let t = known_task(tables, task)?;
    let priority = free_priority(tables, t, priority)?;
    tables.set_priority(t.get(), priority);
    Ok(0)
}

// Gives a task another priority; it runs from then on if it is the runnable one of greatest priority.
pub fn change_priority(tables: &mut Tables, task: u32, priority: u32) -> Answer
    ensures { Steps (view tables.old) (priority_call task priority) result (view tables.new) }
{
    let outcome = try_change_priority(tables, task, priority);
    answer(tables, outcome)
}

// Holds a task, or releases it.
fn try_set_held(tables: &mut Tables, task: u32, held: bool) -> Result<u32, Refusal>
    ensures { Comes (view tables.old) (if held then hold_call task else release_call task) result (view tables.new) }
{
    let t = known_task(tables, task)?;
    match (is_held(tables, t), held) {
        (true, true) => return Err(Refusal::AlreadyHeld),
        (false, false) => return Err(Refusal::NotHeld),
        _ => tables.set_held(t.get(), held),
    }
    Ok(0)
}

// Holds a task: it is not runnable until it is released.
pub fn hold(tables: &mut Tables, task: u32) -> Answer
    ensures { Steps (view tables.old) (hold_call task) result (view tables.new) }
{
    let outcome = try_set_held(tables, task, true);
    answer(tables, outcome)
}

// Releases a task that is held.
pub fn release(tables: &mut Tables, task: u32) -> Answer
    ensures { Steps (view tables.old) (release_call task) result (view tables.new) }
{
    let outcome = try_set_held(tables, task, false);
    answer(tables, outcome)
}

fn try_set_flags(tables: &mut Tables, task: u32, bits: u32) -> Result<u32, Refusal>
    ensures { Comes (view tables.old) (set_call task bits) result (view tables.new) }
{
    let t = known_task(tables, task)?;
    let before = flags(tables, t);
    tables.set_flags(t.get(), before | bits);
    Ok(0)
}

// Adds the bits to a task's flags.
pub fn set_flags(tables: &mut Tables, task: u32, bits: u32) -> Answer
    ensures { Steps (view tables.old) (set_call task bits) result (view tables.new) }
{
    let outcome = try_set_flags(tables, task, bits);
    answer(tables, outcome)
}

fn try_test_flags(tables: &mut Tables, bits: u32) -> Result<u32, Refusal>
    ensures { Comes (view tables.old) (test_call bits) result (view tables.new) }
{
    let t = caller(tables)?;
    let before = flags(tables, t);
    tables.set_flags(t.get(), cleared(before, bits));
    Ok(before & bits)
}

// Tells which of the bits are among the running task's flags, and clears these.
pub fn test_flags(tables: &mut Tables, bits: u32) -> Answer
    ensures { Steps (view tables.old) (test_call bits) result (view tables.new) }
{
    let outcome = try_test_flags(tables, bits);
    answer(tables, outcome)
}
