// Trials of the kernel. Here are the numbers by which they compare what it answers, so that what is expected are the numbers of the rules.
#![tactic(auto)]

ghost use Rattle.std.specs.Prelude.{◌≡◌};
ghost use Rattle.trials.specs.Outcome.{outcome_number, outcome_numbers, answer_numbers, row_numbers, place_numbers, packet_numbers};

#[cfg(test)]
mod checks;
mod furnishing;
mod histories;
mod listings;
mod packet_trials;
mod task_trials;

use calls::{Answer, Refusal};
use listing::Listed;
use packets::rows::{Packet, Place};

// The number of the question that was answered no, or 0.
pub fn outcome_number(outcome: Result<(), Refusal>) -> u32
    ensures { result ≡ outcome_number outcome }
{
    match outcome {
        Ok(()) => 0,
        Err(refusal) => refusal.number(),
    }
}

// The refusal and the value: one of them is 0.
pub fn outcome_numbers(outcome: Result<u32, Refusal>) -> (u32, u32)
    ensures { result ≡ outcome_numbers outcome }
{
    match outcome {
        Ok(value) => (0, value),
        Err(refusal) => (refusal.number(), 0),
    }
}

// The refusal, the value and the running task.
pub fn answer_numbers(answer: Answer) -> (u32, u32, u8)
    ensures { result ≡ answer_numbers answer }
{
    let (refusal, value) = outcome_numbers(answer.outcome);
    (refusal, value, answer.running)
}

// The number, the priority, the state, the flags and the queue's length.
pub fn row_numbers(row: Listed) -> (u8, u16, u8, u32, u8)
    ensures { result ≡ row_numbers row }
{
    (row.task, row.priority, row.state, row.flags, row.queued)
}

// (0, 0) for free, 1 for the hands and 2 for the queue of a task.
fn place_numbers(place: Place) -> (u8, u8)
    ensures { result ≡ place_numbers place }
{
    match place {
        Place::Free => (0, 0),
        Place::Hands(task) => (1, task),
        Place::Queue(task) => (2, task),
    }
}

// The place, the sender, the kind and the two words.
pub fn packet_numbers(packet: Packet) -> ((u8, u8), i32, u32, u32, u32)
    ensures { result ≡ packet_numbers packet }
{
    let place = place_numbers(packet.place);
    (
        place,
        packet.sender,
        packet.kind,
        packet.first,
        packet.second,
    )
}

#[cfg(test)]
mod tests {
    use super::*;
    use kernel::calls::Call;
    use kernel::furnishing::open;

    #[test]
    fn task_numbers_end_at_32(rt: HostRuntime) {
        let mut room = open();
        assert_eq!(rt; outcome_number(room.create(0, 1)), 3);
        assert_eq!(rt; outcome_number(room.create(33, 1)), 3);
        assert_eq!(rt; outcome_number(room.create(4294967295, 1)), 3);
        assert_eq!(rt; outcome_number(room.create(32, 1)), 0);
        assert_eq!(rt; outcome_number(room.create(1, 2)), 0);
    }

    #[test]
    fn priorities_end_at_65535(rt: HostRuntime) {
        let mut room = open();
        assert_eq!(rt; outcome_number(room.create(1, 0)), 7);
        assert_eq!(rt; outcome_number(room.create(1, 65536)), 7);
        assert_eq!(rt; outcome_number(room.create(1, 65535)), 0);
        assert_eq!(rt; outcome_number(room.create(2, 1)), 0);
    }

    #[test]
    fn numbers_and_priorities_are_given_once(rt: HostRuntime) {
        let mut room = open();
        assert_eq!(rt; outcome_number(room.create(5, 10)), 0);
        assert_eq!(rt; outcome_number(room.create(6, 10)), 8);
        assert_eq!(rt; outcome_number(room.create(5, 11)), 9);
        assert_eq!(rt; outcome_number(room.create(6, 11)), 0);
    }

    #[test]
    fn create_asks_in_order(rt: HostRuntime) {
        let mut room = open();
        assert_eq!(rt; outcome_number(room.create(5, 10)), 0);
        assert_eq!(rt; outcome_number(room.create(33, 0)), 3);
        assert_eq!(rt; outcome_number(room.create(5, 0)), 9);
        assert_eq!(rt; outcome_number(room.create(6, 0)), 7);
    }

    #[test]
    fn without_a_task_none_runs(rt: HostRuntime) {
        let mut kernel = open().start();
        assert_eq!(rt; kernel.running(), 0);
        let answer = kernel.call(Call::Claim);
        assert_eq!(rt; answer.running, 0);
        assert!(rt; matches!(answer.outcome, Err(Refusal::NoTaskRunning)));
    }

    #[test]
    fn the_greatest_priority_runs(rt: HostRuntime) {
        let mut room = open();
        let _ = room.create(7, 300);
        let _ = room.create(31, 65535);
        let _ = room.create(3, 1);
        let mut kernel = room.start();
        assert_eq!(rt; kernel.running(), 31);
        let answer = kernel.wait();
        assert_eq!(rt; answer.running, 0);
        let stopped = kernel.stop();
        let _ = stopped;
    }
}
