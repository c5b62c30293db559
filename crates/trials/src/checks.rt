// What the tests do with a kernel, a table of steps or rows at a time.
use crate::*;
use calls::Call;
use kernel::furnishing::open;
use kernel::phases::{Furnishing, Kernel, Started};
use std::process::Abort;

// A row that no listing writes.
pub(crate) const MARK: Listed = Listed {
    task: 99,
    priority: 99,
    state: 99,
    flags: 99,
    queued: 99,
};

// Creates the tasks, and compares the number of each outcome.
pub(crate) fn furnish(rt: &impl Abort, room: &mut Kernel<Furnishing>, creates: &[(u32, u32, u32)]) {
    for &(task, priority, expected) in creates {
        assert_eq!(rt; outcome_number(room.create(task, priority)), expected);
    }
}

// A started kernel with task 6 of priority 20, which runs, and task 5 of priority 10.
pub(crate) fn two_tasks() -> Kernel<Started> {
    let mut room = open();
    let _ = room.create(5, 10);
    let _ = room.create(6, 20);
    room.start()
}

pub(crate) fn create(task: u32, priority: u32) -> Call {
    Call::Create { task, priority }
}

pub(crate) fn change(task: u32, priority: u32) -> Call {
    Call::ChangePriority { task, priority }
}

pub(crate) fn set(task: u32, bits: u32) -> Call {
    Call::SetFlags { task, bits }
}

// Sends a packet with the words 7, 8 and 9.
pub(crate) fn send(address: i32, packet: u32) -> Call {
    Call::Send {
        address,
        packet,
        kind: 7,
        first: 8,
        second: 9,
    }
}

// Claims packets of these numbers for the running task.
pub(crate) fn claim(
    rt: &impl Abort,
    kernel: &mut Kernel<Started>,
    running: u8,
    first: u32,
    last: u32,
) {
    for packet in first..=last {
        assert_eq!(rt;
            answer_numbers(kernel.call(Call::Claim)),
            (0, packet, running)
        );
    }
}

// Compares the first rows; the others are as no listing writes them.
pub(crate) fn rows_are(rt: &impl Abort, rows: &[Listed], expected: &[(u8, u16, u8, u32, u8)]) {
    for (i, &row) in rows.iter().enumerate() {
        let wanted = expected.get(i).copied().unwrap_or(row_numbers(MARK));
        assert_eq!(rt; row_numbers(row), wanted);
    }
}

// Compares a listing in 32 rows.
pub(crate) fn lists(
    rt: &impl Abort,
    kernel: &Kernel<Started>,
    expected: &[(u8, u16, u8, u32, u8)],
) {
    let mut rows = [MARK; 32];
    let (refusal, count) = outcome_numbers(kernel.list(&mut rows));
    assert_eq!(rt; refusal, 0);
    assert_eq!(rt; count as usize, expected.len());
    rows_are(rt, &rows, expected);
}

// Makes each call, and compares the refusal, the value and the running task of its answer.
pub(crate) fn play(
    rt: &impl Abort,
    kernel: &mut Kernel<Started>,
    steps: &[(Call, (u32, u32, u8))],
) {
    for &(call, expected) in steps {
        assert_eq!(rt; answer_numbers(kernel.call(call)), expected);
    }
}

// Plays, and then compares a listing.
pub(crate) fn play_to(
    rt: &impl Abort,
    kernel: &mut Kernel<Started>,
    steps: &[(Call, (u32, u32, u8))],
    rows: &[(u8, u16, u8, u32, u8)],
) {
    play(rt, kernel, steps);
    lists(rt, kernel, rows);
}

// Makes each call, and compares the refusal of its answer, 0 for none; no call gives a value, and task 6 runs on. Then
// compares a listing.
pub(crate) fn ask(
    rt: &impl Abort,
    kernel: &mut Kernel<Started>,
    steps: &[(Call, u32)],
    rows: &[(u8, u16, u8, u32, u8)],
) {
    for &(call, expected) in steps {
        assert_eq!(rt; answer_numbers(kernel.call(call)), (expected, 0, 6));
    }
    lists(rt, kernel, rows);
}

// Compares what is seen of each packet.
pub(crate) fn looks(
    rt: &impl Abort,
    kernel: &Kernel<Started>,
    expected: &[(u32, ((u8, u8), i32, u32, u32, u32))],
) {
    for &(packet, seen) in expected {
        assert_eq!(rt; packet_numbers(kernel.look(packet)), seen);
    }
}
