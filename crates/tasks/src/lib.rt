// The table of tasks, in the order of falling priority.
#![tactic(auto)]

ghost use Rattle.std.specs.Prelude.{◌≡◌, ◌-◌, true, false, length, is_some, None, slice_index_or, slice_set};
ghost use Rattle.chain.specs.Chain.{Row};
ghost use Rattle.tasks.specs.Use.{empty, holding, other_has};
ghost use Rattle.tasks.specs.View.{view, task, others_have, priority_of, fresh, added, removed, replaced, written};

pub mod order;
pub mod rows;
pub mod table;

use chain::Linked;
use numbers::TaskNumber;
use rows::Task;
use table::TaskTable;

// A row without a task.
fn empty_row() -> Linked<Option<Task>>
    ensures { result ≡ empty }
{
    Linked {
        item: None,
        next: 0,
    }
}

// Puts the task in row t, and leaves its link.
fn hold(rows: &mut [Linked<Option<Task>>], t: u8, to: Task)
    requires { Row (length rows.old) t }
    ensures { rows.new ≡ slice_set rows.old (t - 1) (holding (slice_index_or rows.old (t - 1) empty) to) }
{
    rows[(t - 1) as usize].item = Some(to);
}

// Whether task n is another than t, and has the priority.
fn other_at(n: usize, task: Option<Task>, t: u8, priority: u16) -> bool
    ensures { result ≡ other_has n task t priority }
{
    n != usize::from(t) && task.is_some_and(|task| task.priority == priority)
}

impl TaskTable {
    // No task is in use.
    pub fn new() -> TaskTable
        ensures { view result ≡ fresh }
    {
        TaskTable {
            rows: [empty_row(); 32],
            first: 0,
        }
    }

    // Task t, or none where it is not in use or no task has the number.
    pub fn task(&self, t: u8) -> Option<Task>
        ensures { result ≡ task (view self.now) t }
    {
        let number = TaskNumber::try_from(t).ok()?;
        self.row(number).item
    }

    // Whether a task in use other than t has the priority.
    pub fn taken(&self, t: u8, priority: u16) -> bool
        ensures { result ≡ others_have (view self.now).tasks t priority }
    {
        self.rows
            .iter()
            .enumerate()
            .any(|(i, row)| other_at(i + 1, row.item, t, priority))
    }

    // Puts task t, which is not in use, in its place by priority.
    #[tactic(auto, using(crate::proofs::Moves::still_ends, crate::proofs::Moves::still_outside, crate::proofs::Moves::added_holds, crate::proofs::Moves::added_falls, crate::proofs::Moves::added_view))]
    fn put(&mut self, t: u8, to: Task)
        requires row { Row 32 t }
        requires spare { task (view self.old) t ≡ None }
        requires alone { others_have (view self.old).tasks t to.priority ≡ false }
        ensures { view self.new ≡ added (view self.old) t to }
    {
        hold(&mut self.rows, t, to);
        self.first = chain::put_by_rank(&mut self.rows, self.first, t);
    }

    // Brings task t into use, in its place by priority. What is asked is said of the table at the call, so it is in no type.
    pub fn add(&mut self, t: TaskNumber, to: Task)
        requires spare { task (view self.old) t ≡ None }
        requires alone { others_have (view self.old).tasks t to.priority ≡ false }
        ensures { view self.new ≡ added (view self.old) t to }
    {
        self.put(t.get(), to);
    }

    // Task t, which is in use, is so no longer.
    #[tactic(auto, using(crate::proofs::Moves::emptied_ends, crate::proofs::Moves::still_inside, crate::proofs::Moves::removed_holds, crate::proofs::Moves::removed_falls, crate::proofs::Moves::removed_view))]
    pub fn remove(&mut self, t: u8)
        requires used { is_some (task (view self.old) t) ≡ true }
        ensures { view self.new ≡ removed (view self.old) t }
    {
        self.rows[(t - 1) as usize].item = None;
        self.first = chain::take(&mut self.rows, self.first, t);
    }

    // Task t, which is in use, becomes another, in the place of that one's priority.
    #[tactic(auto, using(crate::proofs::Moves::still_alone))]
    pub fn replace(&mut self, t: u8, to: Task)
        requires used { is_some (task (view self.old) t) ≡ true }
        requires alone { others_have (view self.old).tasks t to.priority ≡ false }
        ensures { view self.new ≡ replaced (view self.old) t to }
    {
        self.remove(t);
        self.put(t, to);
    }

    // Writes task t, in use at the same priority.
    #[tactic(auto, using(crate::proofs::Moves::still_ends, crate::proofs::Moves::written_holds, crate::proofs::Moves::written_falls, crate::proofs::Moves::written_view))]
    pub fn write(&mut self, t: u8, to: Task)
        requires same { priority_of (task (view self.old) t) ≡ Some to.priority }
        ensures { view self.new ≡ written (view self.old) t to }
    {
        hold(&mut self.rows, t, to);
    }
}
