// Trials of creating tasks while the kernel is furnished, and of starting it.

#[cfg(test)]
mod tests {
    use crate::checks::*;
    use calls::Call;
    use kernel::furnishing::open;

    #[test]
    fn creates_ask_in_order(rt: HostRuntime) {
        furnish(
            &rt,
            &mut open(),
            &[
                (0, 1, 3),
                (33, 1, 3),
                (4294967295, 1, 3),
                (1, 0, 7),
                (1, 65536, 7),
                (1, 65535, 0),
                (32, 65535, 8),
                (32, 1, 0),
                (1, 2, 9),
                (33, 0, 3),
                (1, 0, 9),
                (6, 0, 7),
            ],
        );
    }

    #[test]
    fn without_a_task_none_runs(rt: HostRuntime) {
        let mut kernel = open().start();
        assert_eq!(rt; kernel.running(), 0);
        play_to(
            &rt,
            &mut kernel,
            &[
                (create(1, 1), (1, 0, 0)),
                (Call::Claim, (1, 0, 0)),
                (Call::Wait, (1, 0, 0)),
            ],
            &[],
        );
    }

    #[test]
    fn the_greatest_priority_runs(rt: HostRuntime) {
        let mut room = open();
        furnish(&rt, &mut room, &[(7, 300, 0), (31, 65535, 0), (3, 1, 0)]);
        let kernel = room.start();
        assert_eq!(rt; kernel.running(), 31);
        lists(
            &rt,
            &kernel,
            &[(31, 65535, 0, 0, 0), (7, 300, 12, 0, 0), (3, 1, 12, 0, 0)],
        );
    }
}
