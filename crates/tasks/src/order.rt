// The way down the order.
ghost use Rattle.std.specs.Prelude.{◌≡◌, ◌-◌, ℕ, List, slice_get, slice_index_or};
ghost use Rattle.std.specs.Iterator.{YieldsFirst, item_count};
ghost use Rattle.chain.specs.Chain.{next};
ghost use Rattle.tasks.specs.Use.{empty};
ghost use Rattle.tasks.specs.Order.{AllRows};

use super::rows::Task;
use super::table::TaskTable;
use chain::Linked;
use chain::walk::Walk;
use numbers::TaskNumber;
use std::marker::Model;

// The tasks in use, by falling priority.
#[derive(Drop)]
pub struct Order<'a> {
    walk: Walk<'a, Linked<Option<Task>>>,
}

// As a list: the tasks that are still to come.
impl<'a> Model for Order<'a> {
    ghost Value = { List ℕ };

    ghost view = { λ o. o.walk };

    ghost invariant = { λ o. AllRows 32 o.walk };
}

impl<'a> Iterator for Order<'a> {
    type Item = TaskNumber;

    ghost next_gives = { YieldsFirst (λ o. o) };

    ghost remaining = { item_count (λ o. o) };

    fn next(&mut self) -> Option<TaskNumber> {
        let t = self.walk.next()?;
        TaskNumber::try_from(t).ok()
    }
}

impl TaskTable {
    ghost use Rattle.tasks.specs.View.{view, links};

    // The row of number t.
    pub(crate) fn row(&self, t: TaskNumber) -> Linked<Option<Task>>
        ensures { result ≡ slice_index_or self.now.rows (t - 1) empty }
    {
        self.rows[t.index()]
    }

    // The first task of the order, if a task is in use.
    pub fn first(&self) -> Option<TaskNumber>
        ensures { result ≡ slice_get (view self.now).order 0 }
    {
        self.order().next()
    }

    // The task after t in the order, or 0. A number of its own for none: 0 ends a chain, and a row that is on no chain may have any link.
    pub fn next(&self, t: TaskNumber) -> u8
        ensures { result ≡ next (links self.now) t }
    {
        self.row(t).next
    }

    // The tasks in use, by falling priority.
    #[tactic(auto, using(crate::proofs::Walk::order_rows))]
    pub fn order(&self) -> Order<'_>
        ensures { result ≡ (view self.now).order }
    {
        Order {
            walk: Walk::new(&self.rows, self.first),
        }
    }
}
