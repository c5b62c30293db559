// The calls of a kernel with their answers, and the questions that they ask first.
#![tactic(auto)]

ghost use Rattle.std.specs.Prelude.{◌≡◌};
ghost use Rattle.calls.specs.Numbers.{refusal_number, call_code};

pub mod answers;
pub mod questions;

// Why a call is refused: each is a question that was answered no, under its number.
#[derive(Clone, Copy, Debug, PartialEq, Eq)]
pub enum Refusal {
    NoTaskRunning = 1,
    RunnerNotReady = 2,
    NoSuchTask = 3,
    NoSuchUnit = 4,
    NoSuchPacket = 5,
    NotInHands = 6,
    BadPriority = 7,
    PriorityTaken = 8,
    TaskInUse = 9,
    NoPacketFree = 10,
    AlreadyHeld = 11,
    NotHeld = 12,
    TaskNotIdle = 13,
    PacketsOut = 14,
    UnitFull = 15,
    NotThere = 16,
    SetDisagrees = 17,
    TooFewRows = 22,
}

impl Refusal {
    // The number of the question that was answered no.
    pub fn number(self) -> u32
        ensures { result ≡ refusal_number self }
    {
        self as u32
    }
}

// A call with its arguments: any words, and for an address any signed one.
#[derive(Clone, Copy, Debug, PartialEq, Eq)]
pub enum Call {
    Create {
        task: u32,
        priority: u32,
    },
    Delete {
        task: u32,
    },
    ChangePriority {
        task: u32,
        priority: u32,
    },
    Hold {
        task: u32,
    },
    Release {
        task: u32,
    },
    SetFlags {
        task: u32,
        bits: u32,
    },
    TestFlags {
        bits: u32,
    },
    Claim,
    Drop {
        packet: u32,
    },
    Send {
        address: i32,
        packet: u32,
        kind: u32,
        first: u32,
        second: u32,
    },
    Wait,
}

impl Call {
    // The code by which scripts and answers name the call: the one definition of the codes, since calls have fields and no discriminants.
    pub fn code(self) -> u8
        ensures { result ≡ call_code self }
    {
        match self {
            Call::Create { .. } => 1,
            Call::Delete { .. } => 2,
            Call::ChangePriority { .. } => 3,
            Call::Hold { .. } => 4,
            Call::Release { .. } => 5,
            Call::SetFlags { .. } => 6,
            Call::TestFlags { .. } => 7,
            Call::Claim => 8,
            Call::Drop { .. } => 9,
            Call::Send { .. } => 10,
            Call::Wait => 12,
        }
    }
}

// The value, or why the call was refused; and the task that runs then, by the number that answers have: 0 for none.
#[derive(Clone, Copy, Debug, PartialEq, Eq)]
pub struct Answer {
    pub outcome: Result<u32, Refusal>,
    pub running: u8,
}
