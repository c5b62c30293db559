// What the table of tasks keeps.
ghost use Rattle.std.specs.Prelude.{◌≡◌, ℕ, true, ◌∷◌, map, length};
ghost use Rattle.chain.specs.Times.{times};
ghost use Rattle.chain.specs.Chain.{chain, Ends};
ghost use Rattle.chain.specs.Falling.{falling};
ghost use Rattle.tasks.specs.Use.{rank, in_use, task_at};

use super::rows::Task;
use chain::Linked;

// A fixed table, since a kernel takes no memory once it is there. The tasks 1 to 32. From `first` on those in use are linked by falling priority.
#[derive(Clone, Copy)]
pub struct TaskTable {
    pub(crate) rows: [Linked<Option<Task>>; 32],
    pub(crate) first: u8,
    ghost sized: { length rows ≡ 32 },
    ghost ends: { Ends (first ∷ map (λ r. r.next) rows) },
    ghost holds: { (n : ℕ) → times n (chain (first ∷ map (λ r. r.next) rows)) ≡ in_use (task_at (map (λ r. r.item) rows) n) },
    ghost falls: { falling (map rank (map (λ r. r.item) rows)) (chain (first ∷ map (λ r. r.next) rows)) ≡ true },
}
