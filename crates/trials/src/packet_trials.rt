// Trials of the calls by which tasks claim, drop, send and wait for packets.

#[cfg(test)]
mod tests {
    use crate::checks::*;
    use crate::*;
    use calls::Call;
    use kernel::phases::{Kernel, Started};
    use std::process::Abort;

    // Makes the call, and compares what is then seen of packet 1.
    fn sees(
        rt: &impl Abort,
        kernel: &mut Kernel<Started>,
        call: Call,
        seen: ((u8, u8), i32, u32, u32, u32),
    ) {
        let _ = kernel.call(call);
        assert_eq!(rt; packet_numbers(kernel.look(1)), seen);
    }

    #[test]
    fn a_packet_is_seen_on_its_way(rt: HostRuntime) {
        let mut kernel = two_tasks();
        sees(&rt, &mut kernel, Call::Claim, ((1, 6), 0, 0, 0, 0));
        sees(&rt, &mut kernel, send(5, 1), ((2, 5), 6, 7, 8, 9));
        sees(&rt, &mut kernel, Call::Wait, ((2, 5), 6, 7, 8, 9));
        sees(&rt, &mut kernel, Call::Wait, ((1, 5), 6, 7, 8, 9));
        sees(
            &rt,
            &mut kernel,
            Call::Drop { packet: 1 },
            ((0, 0), 0, 0, 0, 0),
        );
    }

    #[test]
    fn a_number_of_no_packet_shows_zeros(rt: HostRuntime) {
        let mut kernel = two_tasks();
        let _ = kernel.call(Call::Claim);
        looks(
            &rt,
            &kernel,
            &[
                (0, ((0, 0), 0, 0, 0, 0)),
                (1, ((1, 6), 0, 0, 0, 0)),
                (64, ((0, 0), 0, 0, 0, 0)),
                (65, ((0, 0), 0, 0, 0, 0)),
                (257, ((0, 0), 0, 0, 0, 0)),
                (4294967295, ((0, 0), 0, 0, 0, 0)),
            ],
        );
    }

    #[test]
    fn sixty_four_packets_are_claimed(rt: HostRuntime) {
        let mut kernel = two_tasks();
        claim(&rt, &mut kernel, 6, 1, 64);
        assert_eq!(rt; answer_numbers(kernel.call(Call::Claim)), (10, 0, 6));
        looks(&rt, &kernel, &[(64, ((1, 6), 0, 0, 0, 0))]);
    }

    #[test]
    fn drop_and_send_are_refused(rt: HostRuntime) {
        let mut kernel = two_tasks();
        let _ = kernel.call(Call::Claim);
        ask(
            &rt,
            &mut kernel,
            &[
                (Call::Drop { packet: 0 }, 5),
                (Call::Drop { packet: 65 }, 5),
                (Call::Drop { packet: 4294967295 }, 5),
                (Call::Drop { packet: 2 }, 6),
                (send(5, 0), 5),
                (send(5, 65), 5),
                (send(5, 2), 6),
                (send(0, 1), 3),
                (send(7, 1), 3),
                (send(33, 1), 3),
                (send(2147483647, 1), 3),
                (send(-1, 1), 4),
                (send(-2147483648, 1), 4),
            ],
            &[(6, 20, 0, 0, 0), (5, 10, 12, 0, 0)],
        );
        looks(&rt, &kernel, &[(1, ((1, 6), 0, 0, 0, 0))]);
    }

    #[test]
    fn queues_and_free_packets_go_first_in_first_out(rt: HostRuntime) {
        let mut kernel = two_tasks();
        claim(&rt, &mut kernel, 6, 1, 2);
        play_to(
            &rt,
            &mut kernel,
            &[
                (send(5, 2), (0, 0, 6)),
                (send(5, 1), (0, 0, 6)),
                (Call::Wait, (0, 0, 5)),
            ],
            &[(6, 20, 4, 0, 0), (5, 10, 13, 0, 2)],
        );
        play_to(
            &rt,
            &mut kernel,
            &[
                (Call::Wait, (0, 2, 5)),
                (Call::Wait, (0, 1, 5)),
                (Call::Drop { packet: 1 }, (0, 0, 5)),
                (Call::Claim, (0, 3, 5)),
                (Call::Wait, (0, 0, 0)),
            ],
            &[(6, 20, 4, 0, 0), (5, 10, 4, 0, 0)],
        );
    }
}
