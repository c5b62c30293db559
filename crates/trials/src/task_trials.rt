// Trials of the calls by which tasks create, delete and change tasks.

#[cfg(test)]
mod tests {
    use crate::checks::*;
    use calls::Call;

    #[test]
    fn create_is_refused(rt: HostRuntime) {
        ask(
            &rt,
            &mut two_tasks(),
            &[
                (create(5, 7), 9),
                (create(6, 0), 9),
                (create(0, 7), 3),
                (create(33, 7), 3),
                (create(4294967295, 7), 3),
                (create(7, 0), 7),
                (create(7, 65536), 7),
                (create(7, 10), 8),
            ],
            &[(6, 20, 0, 0, 0), (5, 10, 12, 0, 0)],
        );
    }

    #[test]
    fn create_brings_a_dormant_task(rt: HostRuntime) {
        ask(
            &rt,
            &mut two_tasks(),
            &[(create(32, 65535), 0), (create(1, 1), 0)],
            &[
                (32, 65535, 12, 0, 0),
                (6, 20, 0, 0, 0),
                (5, 10, 12, 0, 0),
                (1, 1, 12, 0, 0),
            ],
        );
    }

    #[test]
    fn hold_and_release_alternate(rt: HostRuntime) {
        let mut kernel = two_tasks();
        ask(
            &rt,
            &mut kernel,
            &[
                (Call::Hold { task: 5 }, 0),
                (Call::Hold { task: 5 }, 11),
                (Call::Hold { task: 0 }, 3),
                (Call::Hold { task: 7 }, 3),
                (Call::Hold { task: 33 }, 3),
                (Call::Hold { task: 4294967295 }, 3),
            ],
            &[(6, 20, 0, 0, 0), (5, 10, 14, 0, 0)],
        );
        ask(
            &rt,
            &mut kernel,
            &[
                (Call::Release { task: 5 }, 0),
                (Call::Release { task: 5 }, 12),
                (Call::Release { task: 6 }, 12),
                (Call::Release { task: 0 }, 3),
                (Call::Release { task: 7 }, 3),
                (Call::Release { task: 33 }, 3),
                (Call::Release { task: 4294967295 }, 3),
            ],
            &[(6, 20, 0, 0, 0), (5, 10, 12, 0, 0)],
        );
    }

    #[test]
    fn a_task_that_holds_itself_runs_when_released(rt: HostRuntime) {
        let mut kernel = two_tasks();
        play_to(
            &rt,
            &mut kernel,
            &[
                (Call::Claim, (0, 1, 6)),
                (send(5, 1), (0, 0, 6)),
                (Call::Hold { task: 6 }, (0, 0, 5)),
                (Call::Wait, (0, 1, 5)),
            ],
            &[(6, 20, 2, 0, 0), (5, 10, 0, 0, 0)],
        );
        play_to(
            &rt,
            &mut kernel,
            &[
                (Call::Release { task: 6 }, (0, 0, 6)),
                (Call::Hold { task: 5 }, (0, 0, 6)),
                (Call::Hold { task: 6 }, (0, 0, 0)),
                (Call::Release { task: 6 }, (1, 0, 0)),
            ],
            &[(6, 20, 2, 0, 0), (5, 10, 2, 0, 0)],
        );
    }

    #[test]
    fn a_task_that_waits_or_is_ready_is_not_deleted(rt: HostRuntime) {
        let mut kernel = two_tasks();
        play_to(
            &rt,
            &mut kernel,
            &[
                (Call::Claim, (0, 1, 6)),
                (send(5, 1), (0, 0, 6)),
                (Call::Wait, (0, 0, 5)),
                (Call::Delete { task: 6 }, (2, 0, 5)),
                (Call::Wait, (0, 1, 5)),
                (Call::Delete { task: 6 }, (13, 0, 5)),
            ],
            &[(6, 20, 4, 0, 0), (5, 10, 0, 0, 0)],
        );
        play_to(
            &rt,
            &mut kernel,
            &[
                (send(6, 1), (0, 0, 6)),
                (Call::Delete { task: 5 }, (2, 0, 6)),
                (Call::Wait, (0, 1, 6)),
                (Call::Delete { task: 5 }, (13, 0, 6)),
            ],
            &[(6, 20, 0, 0, 0), (5, 10, 0, 0, 0)],
        );
    }

    #[test]
    fn a_task_with_packets_out_is_not_deleted(rt: HostRuntime) {
        play_to(
            &rt,
            &mut two_tasks(),
            &[
                (Call::Claim, (0, 1, 6)),
                (Call::Delete { task: 6 }, (14, 0, 6)),
                (send(5, 1), (0, 0, 6)),
                (Call::Delete { task: 6 }, (14, 0, 6)),
                (Call::Delete { task: 5 }, (14, 0, 6)),
                (Call::Delete { task: 0 }, (3, 0, 6)),
                (Call::Delete { task: 7 }, (3, 0, 6)),
                (Call::Delete { task: 33 }, (3, 0, 6)),
                (Call::Delete { task: 4294967295 }, (3, 0, 6)),
            ],
            &[(6, 20, 0, 0, 0), (5, 10, 13, 0, 1)],
        );
    }

    #[test]
    fn a_task_that_dropped_its_packet_deletes_itself(rt: HostRuntime) {
        let mut kernel = two_tasks();
        play_to(
            &rt,
            &mut kernel,
            &[
                (Call::Claim, (0, 1, 6)),
                (send(5, 1), (0, 0, 6)),
                (Call::Wait, (0, 0, 5)),
                (Call::Wait, (0, 1, 5)),
                (send(6, 1), (0, 0, 6)),
                (Call::Wait, (0, 1, 6)),
                (Call::Delete { task: 6 }, (14, 0, 6)),
                (Call::Drop { packet: 1 }, (0, 0, 6)),
                (Call::Delete { task: 6 }, (0, 0, 5)),
            ],
            &[(5, 10, 0, 0, 0)],
        );
        play_to(
            &rt,
            &mut kernel,
            &[(Call::Delete { task: 5 }, (0, 0, 0))],
            &[],
        );
    }

    #[test]
    fn change_of_priority_is_refused(rt: HostRuntime) {
        ask(
            &rt,
            &mut two_tasks(),
            &[
                (change(5, 0), 7),
                (change(5, 65536), 7),
                (change(5, 20), 8),
                (change(6, 10), 8),
                (change(0, 7), 3),
                (change(7, 7), 3),
                (change(33, 7), 3),
                (change(4294967295, 7), 3),
            ],
            &[(6, 20, 0, 0, 0), (5, 10, 12, 0, 0)],
        );
    }

    #[test]
    fn change_of_priority_moves_a_task(rt: HostRuntime) {
        let mut kernel = two_tasks();
        ask(
            &rt,
            &mut kernel,
            &[(change(6, 20), 0), (change(5, 65535), 0)],
            &[(5, 65535, 12, 0, 0), (6, 20, 0, 0, 0)],
        );
        play_to(
            &rt,
            &mut kernel,
            &[
                (change(5, 10), (0, 0, 6)),
                (Call::Claim, (0, 1, 6)),
                (send(5, 1), (0, 0, 6)),
                (change(6, 9), (0, 0, 5)),
            ],
            &[(5, 10, 13, 0, 1), (6, 9, 0, 0, 0)],
        );
    }

    #[test]
    fn flags_have_32_bits(rt: HostRuntime) {
        let mut kernel = two_tasks();
        play_to(
            &rt,
            &mut kernel,
            &[
                (set(5, 1), (0, 0, 6)),
                (set(5, 6), (0, 0, 6)),
                (set(0, 1), (3, 0, 6)),
                (set(7, 1), (3, 0, 6)),
                (set(33, 1), (3, 0, 6)),
                (set(4294967295, 1), (3, 0, 6)),
                (set(6, 0xFFFFFFFF), (0, 0, 6)),
                (Call::TestFlags { bits: 0xFFFF }, (0, 0xFFFF, 6)),
            ],
            &[(6, 20, 0, 0xFFFF0000, 0), (5, 10, 12, 7, 0)],
        );
        play_to(
            &rt,
            &mut kernel,
            &[
                (Call::TestFlags { bits: 0xFFFFFFFF }, (0, 0xFFFF0000, 6)),
                (Call::TestFlags { bits: 0xFFFFFFFF }, (0, 0, 6)),
            ],
            &[(6, 20, 0, 0, 0), (5, 10, 12, 7, 0)],
        );
    }
}
