// Which task runs.
ghost use Rattle.std.specs.Prelude.{◌≡◌, ◌≤◌, find, IfSome, IfNone};
ghost use Rattle.tables.specs.Running.{is_ready, may_run, runnable, running, Greatest};
ghost use Rattle.tables.specs.View.{view};

use super::store::Tables;
use numbers::TaskNumber;
use tasks::rows::{Condition, Task};

// Whether the condition is ready.
pub fn ready(condition: Condition) -> bool
    ensures { result ≡ is_ready condition }
{
    condition == Condition::Ready
}

// Whether a task may run, of which it is known whether a packet is queued for it.
fn may_run(task: Option<Task>, queued: bool) -> bool
    ensures { result ≡ may_run task queued }
{
    task.is_some_and(|task| !task.held && (ready(task.condition) || queued))
}

impl Tables {
    // Whether task t may run.
    fn runnable(&self, t: TaskNumber) -> bool
        ensures { result ≡ runnable (view self.now) t }
    {
        may_run(self.task(t.get()), self.any_queued(t))
    }

    // The first task that may run, down the order.
    fn first_runnable(&self) -> Option<TaskNumber>
        ensures is { result ≡ find (runnable (view self.now)) (view self.now).order }
        ensures greatest { Greatest (view self.now) (running (view self.now)) }
    {
        self.order().find(|&t| self.runnable(t))
    }

    // The runnable task of greatest priority, if a task is runnable.
    #[tactic(auto, using(crate::proofs::Runs::found_one, crate::proofs::Runs::found_none))]
    pub fn runner(&self) -> Option<TaskNumber>
        ensures one { IfSome result (λ t. t ≡ running (view self.now)) }
        ensures none { IfNone result (running (view self.now) ≡ 0) }
        ensures greatest { Greatest (view self.now) (running (view self.now)) }
    {
        self.first_runnable()
    }

    // The runnable task of greatest priority, or 0 where no task is runnable: the number that an answer names.
    #[tactic(auto, using(crate::proofs::Runs::running_bound))]
    pub fn running(&self) -> u8
        ensures is { result ≡ running (view self.now) }
        ensures greatest { Greatest (view self.now) result }
        ensures task { result ≤ 32 }
    {
        self.runner().map_or(0, |t| t.get())
    }
}
