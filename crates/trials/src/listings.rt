// Trials of listings.

#[cfg(test)]
mod tests {
    use crate::checks::*;
    use crate::*;
    use calls::Call;
    use kernel::furnishing::open;
    use kernel::phases::{Kernel, Started};
    use std::process::Abort;

    // A started kernel with the tasks from 1 on; task 1 has priority 99, and each other one less than the one before.
    fn tasks_up_to(rt: &impl Abort, last: u32) -> Kernel<Started> {
        let mut room = open();
        for task in 1..=last {
            let priority = 100u32.saturating_sub(task);
            assert_eq!(rt; outcome_number(room.create(task, priority)), 0);
        }
        room.start()
    }

    // Task 1 sends a packet to each of 2 to 8 and waits. Each takes its packet: 2 to 5 wait again, 6 and 7 are held, and 8
    // sends its packet back to 1, which runs then.
    fn wake_each(rt: &impl Abort, kernel: &mut Kernel<Started>) {
        claim(rt, kernel, 1, 1, 7);
        play(
            rt,
            kernel,
            &[
                (send(2, 1), (0, 0, 1)),
                (send(3, 2), (0, 0, 1)),
                (send(4, 3), (0, 0, 1)),
                (send(5, 4), (0, 0, 1)),
                (send(6, 5), (0, 0, 1)),
                (send(7, 6), (0, 0, 1)),
                (send(8, 7), (0, 0, 1)),
                (Call::Wait, (0, 0, 2)),
                (Call::Wait, (0, 1, 2)),
                (Call::Wait, (0, 0, 3)),
                (Call::Wait, (0, 2, 3)),
                (Call::Wait, (0, 0, 4)),
                (Call::Wait, (0, 3, 4)),
                (Call::Wait, (0, 0, 5)),
                (Call::Wait, (0, 4, 5)),
                (Call::Wait, (0, 0, 6)),
                (Call::Wait, (0, 5, 6)),
                (Call::Hold { task: 6 }, (0, 0, 7)),
                (Call::Wait, (0, 6, 7)),
                (Call::Hold { task: 7 }, (0, 0, 8)),
                (Call::Wait, (0, 7, 8)),
                (send(1, 7), (0, 0, 1)),
                (Call::Wait, (0, 7, 1)),
            ],
        );
    }

    #[test]
    fn every_state_is_listed(rt: HostRuntime) {
        let mut kernel = tasks_up_to(&rt, 12);
        wake_each(&rt, &mut kernel);
        claim(&rt, &mut kernel, 1, 8, 14);
        play_to(
            &rt,
            &mut kernel,
            &[
                (send(3, 8), (0, 0, 1)),
                (send(5, 9), (0, 0, 1)),
                (send(6, 10), (0, 0, 1)),
                (send(8, 11), (0, 0, 1)),
                (send(10, 12), (0, 0, 1)),
                (send(12, 13), (0, 0, 1)),
                (send(12, 14), (0, 0, 1)),
                (Call::Release { task: 6 }, (0, 0, 1)),
                (Call::Hold { task: 4 }, (0, 0, 1)),
                (Call::Hold { task: 5 }, (0, 0, 1)),
                (Call::Hold { task: 8 }, (0, 0, 1)),
                (Call::Hold { task: 11 }, (0, 0, 1)),
                (Call::Hold { task: 12 }, (0, 0, 1)),
                (set(9, 5), (0, 0, 1)),
            ],
            &[
                (1, 99, 0, 0, 0),
                (2, 98, 4, 0, 0),
                (3, 97, 5, 0, 1),
                (4, 96, 6, 0, 0),
                (5, 95, 7, 0, 1),
                (6, 94, 1, 0, 1),
                (7, 93, 2, 0, 0),
                (8, 92, 3, 0, 1),
                (9, 91, 12, 5, 0),
                (10, 90, 13, 0, 1),
                (11, 89, 14, 0, 0),
                (12, 88, 15, 0, 2),
            ],
        );
    }

    #[test]
    fn fewer_than_32_rows_stay(rt: HostRuntime) {
        let kernel = two_tasks();
        let mut rows = [MARK; 31];
        assert_eq!(rt; outcome_numbers(kernel.list(&mut rows)), (22, 0));
        rows_are(&rt, &rows, &[]);
        assert_eq!(rt; outcome_numbers(kernel.stop().list(&mut rows)), (22, 0));
        rows_are(&rt, &rows, &[]);
    }

    #[test]
    fn more_than_32_rows_are_fine(rt: HostRuntime) {
        let kernel = two_tasks();
        let mut rows = [MARK; 40];
        assert_eq!(rt; outcome_numbers(kernel.list(&mut rows)), (0, 2));
        rows_are(&rt, &rows, &[(6, 20, 0, 0, 0), (5, 10, 12, 0, 0)]);
    }

    #[test]
    fn a_stopped_kernel_lists_the_same(rt: HostRuntime) {
        let mut kernel = two_tasks();
        let _ = kernel.call(Call::Hold { task: 5 });
        let mut rows = [MARK; 32];
        assert_eq!(rt; outcome_numbers(kernel.stop().list(&mut rows)), (0, 2));
        rows_are(&rt, &rows, &[(6, 20, 0, 0, 0), (5, 10, 14, 0, 0)]);
    }

    #[test]
    fn thirty_two_tasks_fill_32_rows(rt: HostRuntime) {
        let kernel = tasks_up_to(&rt, 32);
        let mut rows = [MARK; 32];
        assert_eq!(rt; outcome_numbers(kernel.list(&mut rows)), (0, 32));
        assert_eq!(rt; row_numbers(rows[0]), (1, 99, 0, 0, 0));
        assert_eq!(rt; row_numbers(rows[1]), (2, 98, 12, 0, 0));
        assert_eq!(rt; row_numbers(rows[31]), (32, 68, 12, 0, 0));
    }
}
