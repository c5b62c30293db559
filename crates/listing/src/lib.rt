// The tasks as rows for a caller to read.
#![tactic(auto)]

ghost use Rattle.std.specs.Prelude.{◌≡◌, ◌≤◌, ◌++◌, length, drop};
ghost use Rattle.tables.specs.View.{view};
ghost use Rattle.listing.specs.Listed.{condition_value, state_value, row_of, list_rows, listed, list_count};

use numbers::TaskNumber;
use tables::store::Tables;
use tasks::rows::{Condition, Task};

// One task of a listing: its number, what it is, and how many packets are queued for it. A row is numbers, and the state is the one
// that `state_value` makes.
#[derive(Clone, Copy, Debug, Default, PartialEq, Eq)]
pub struct Listed {
    pub task: u8,
    pub priority: u16,
    pub state: u8,
    pub flags: u32,
    pub queued: u8,
}

// What the condition counts in a state's value.
fn condition_value(condition: Condition) -> u8
    ensures is { result ≡ condition_value condition }
    ensures small { result ≤ 12 }
{
    match condition {
        Condition::Ready => 0,
        Condition::Waiting => 4,
        Condition::Dormant => 12,
    }
}

// The state's value of a task, of which it is known whether a packet is queued for it.
fn state_value(task: Task, filled: bool) -> u8
    ensures { result ≡ state_value task filled }
{
    condition_value(task.condition) + u8::from(filled) + 2 * u8::from(task.held)
}

// The row of task t.
fn row_of(tables: &Tables, t: TaskNumber) -> Listed
    ensures { result ≡ row_of (view tables.now) t }
{
    match tables.task(t.get()) {
        Some(task) => Listed {
            task: t.get(),
            priority: task.priority,
            state: state_value(task, tables.any_queued(t)),
            flags: task.flags,
            queued: tables.queue_length(t),
        },
        None => Listed::default(),
    }
}

// Writes a row for each task by falling priority. Returns how many. The rows go by their places, since nothing is known of what a chain
// over lent rows has written.
fn write_rows(tables: &Tables, rows: &mut [Listed]) -> u8
    requires { 32 ≤ length rows.old }
    ensures count { result ≡ length (view tables.now).order }
    ensures rows { rows.new ≡ list_rows (view tables.now) ++ drop (length (view tables.now).order) rows.old }
{
    for (i, t) in tables.order().enumerate() {
        rows[i] = row_of(tables, t);
    }
    // There are at most 32 tasks, so the cast loses nothing.
    tables.order().count() as u8
}

// Writes a row for each task by falling priority and returns how many; later rows stay as they were.
// Fewer than 32 rows are refused, however few tasks there are, and none is written.
pub fn list(tables: &Tables, rows: &mut [Listed]) -> Option<u8>
    ensures count { result ≡ list_count (view tables.now) rows.old }
    ensures rows { rows.new ≡ listed (view tables.now) rows.old }
{
    if rows.len() < 32 {
        return None;
    }
    Some(write_rows(tables, rows))
}
