// The lines that a played script gives.
ghost use Rattle.std.specs.Prelude.{◌≡◌, ◌++◌, map, IfOk, Some};
ghost use Rattle.std.specs.List.{zip};
ghost use Rattle.player.specs.Played.{answer_line, last_line};
ghost use Rattle.player.specs.Printed.{line_text};

use crate::records::BadRecord;
use kernel::calls::{Answer, Call};
use std::alloc::{AllocError, Global};
use std::fmt;

// What is said of one record: a call that was made and its answer, or what a bad record fails and the task that runs then, 0 for none as
// in an answer.
#[derive(Clone, Copy, Debug, PartialEq, Eq)]
pub enum Line {
    Made { call: Call, answer: Answer },
    Bad { fault: BadRecord, running: u8 },
}

impl fmt::Display for Line {
    ghost output = { λ l. Some (line_text l) };

    #[tactic(auto, using(std::proofs::lemmas::Fmt::decimal_digit))]
    fn fmt<W: fmt::Write>(&self, f: &mut fmt::Formatter<W>) -> fmt::Result {
        match self {
            Line::Made { call, answer } => match answer.outcome {
                Ok(value) => write!(f, "{} 0 {value} {}", call.code(), answer.running),
                Err(why) => write!(f, "{} {} 0 {}", call.code(), why.number(), answer.running),
            },
            Line::Bad { fault, running } => write!(f, "0 {} 0 {running}", fault.number()),
        }
    }
}

// A line for each call and its answer.
pub(crate) fn answer_lines(
    calls: &[Call],
    answers: &[Answer],
    heap: Global,
) -> Result<Vec<Line>, AllocError>
    ensures { IfOk result (λ v. v.items ≡ map answer_line (zip calls.now answers.now)) }
{
    calls
        .iter()
        .zip(answers)
        .map(|(call, answer)| Line::Made {
            call: *call,
            answer: *answer,
        })
        .collect(heap)
}

// The lines, and one more where the script ends in a bad record.
pub(crate) fn with_last(
    mut lines: Vec<Line>,
    fault: Option<BadRecord>,
    running: u8,
) -> Result<Vec<Line>, AllocError>
    ensures { IfOk result (λ v. v.items ≡ lines.items ++ last_line fault running) }
{
    if let Some(fault) = fault {
        lines.push(Line::Bad { fault, running })?;
    }
    Ok(lines)
}
