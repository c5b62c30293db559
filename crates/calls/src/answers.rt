// Answers to calls.
ghost use Rattle.std.specs.Prelude.{◌≡◌};
ghost use Rattle.calls.specs.Steps.{named};
ghost use Rattle.tables.specs.View.{view};

use crate::{Answer, Refusal};
use tables::store::Tables;

// The outcome, and the task that runs now: the runnable one of greatest priority.
pub fn answer(tables: &Tables, outcome: Result<u32, Refusal>) -> Answer
    ensures { result ≡ named (view tables.now) outcome }
{
    let running = tables.running();
    Answer { outcome, running }
}
