// What is kept of one task.
ghost use Rattle.std.specs.Prelude.{◌≡◌};

use chain::Ranked;

#[derive(Clone, Copy, Debug, PartialEq, Eq)]
pub enum Condition {
    Dormant,
    Ready,
    Waiting,
}

#[derive(Clone, Copy, Debug, PartialEq, Eq)]
pub struct Task {
    pub priority: u16,
    pub condition: Condition,
    pub held: bool,
    pub flags: u32,
}

impl Ranked for Task {
    ghost key = { λ x. x.priority };

    fn rank(&self) -> u16 {
        self.priority
    }
}
