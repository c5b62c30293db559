// What the calls of a kernel come to.
#![tactic(auto)]

ghost use Rattle.effects.specs.Told.{CallsDoAsTold};

// What each call changes, said of each packet, each queue and each task.
pub fn calls_do_as_told() -> u8
    ensures { CallsDoAsTold }
{
    0
}
