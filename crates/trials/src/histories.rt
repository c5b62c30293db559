// Trials of whole histories.

#[cfg(test)]
mod tests {
    use crate::checks::*;
    use crate::*;
    use calls::Call;
    use history::creations::Creation;
    use history::{History, run};
    use std::process::Abort;
    use std::test::Fail;

    // Compares the numbers of the replies to creates.
    fn replies_are(rt: &impl Abort, replies: &[Result<(), Refusal>], expected: &[u32]) {
        assert!(rt; replies.len() == expected.len());
        for (&reply, &wanted) in replies.iter().zip(expected) {
            assert_eq!(rt; outcome_number(reply), wanted);
        }
    }

    // Compares the numbers of the answers to calls.
    fn answers_are(rt: &impl Abort, answers: &[Answer], expected: &[(u32, u32, u8)]) {
        assert!(rt; answers.len() == expected.len());
        for (&answer, &wanted) in answers.iter().zip(expected) {
            assert_eq!(rt; answer_numbers(answer), wanted);
        }
    }

    // Compares the replies and the answers of a history, and the task that runs after it.
    fn leaves(
        rt: &impl Abort,
        history: &History,
        replies: &[u32],
        answers: &[(u32, u32, u8)],
        running: u8,
    ) {
        replies_are(rt, &history.replies, replies);
        answers_are(rt, &history.answers, answers);
        assert_eq!(rt; history.kernel.running(), running);
    }

    fn creation(task: u32, priority: u32) -> Creation {
        Creation { task, priority }
    }

    #[test]
    fn refused_creates_make_no_task(rt: HostRuntime) -> Result<(), Fail> {
        let creates = [
            creation(5, 10),
            creation(5, 11),
            creation(0, 11),
            creation(6, 10),
            creation(6, 0),
            creation(6, 20),
        ];
        let calls = [Call::Claim, send(5, 1), Call::Wait, Call::Wait, send(7, 1)];
        let history = run(&creates, &calls, rt.alloc())?;
        leaves(
            &rt,
            &history,
            &[0, 9, 3, 8, 7, 0],
            &[(0, 1, 6), (0, 0, 6), (0, 0, 5), (0, 1, 5), (3, 0, 5)],
            5,
        );
        lists(&rt, &history.kernel, &[(6, 20, 4, 0, 0), (5, 10, 0, 0, 0)]);
        Ok(())
    }

    #[test]
    fn without_creates_every_call_is_refused(rt: HostRuntime) -> Result<(), Fail> {
        let history = run(&[], &[create(1, 1), Call::Wait], rt.alloc())?;
        leaves(&rt, &history, &[], &[(1, 0, 0), (1, 0, 0)], 0);
        Ok(())
    }
}
