// A kernel before its first call.
ghost use Rattle.std.specs.Prelude.{◌≡◌, Result};
ghost use Rattle.tables.specs.State.{State};
ghost use Rattle.tables.specs.Moves.{fresh};
ghost use Rattle.calls.specs.declared.Refusal.{Refusal as Why};
ghost use Rattle.calls.specs.Steps.{create, start as started};
ghost use Rattle.kernel.specs.View.{state};

use super::phases::{Furnishing, Kernel, Started};
use calls::Refusal;
use calls::questions::creatable;
use tables::store::Tables;
use tasks::rows::Condition;

// A kernel to be furnished: no task is in use, and every packet is free.
pub fn open() -> Kernel<Furnishing>
    ensures { state result ≡ fresh }
{
    Kernel::with(Tables::new())
}

impl Kernel<Furnishing> {
    // Creates a task: dormant, not held, flags 0.
    pub fn create(&mut self, task: u32, priority: u32) -> Result<(), Refusal>
        ensures { ◌≡◌ {A = State × Result (Unit {0}) Why} (state self.new, result) (create (state self.old) task priority) }
    {
        let new = creatable(&self.tables, task, priority)?;
        self.tables.add_task(new.number, new.priority);
        Ok(())
    }

    // Of all tasks, if there are any, the one of greatest priority becomes ready. Calls are taken from then on.
    pub fn start(self) -> Kernel<Started>
        ensures { state result ≡ started (state self) }
    {
        let Kernel {
            mut tables,
            phase: _,
        } = self;
        if let Some(t) = tables.top() {
            tables.set_condition(t.get(), Condition::Ready);
        }
        Kernel::with(tables)
    }
}
