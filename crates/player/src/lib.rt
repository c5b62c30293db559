// Plays scripts of calls: the bytes of a script go in, a line of text for each record comes out.
#![tactic(auto)]

ghost use Rattle.std.specs.Prelude.{◌≡◌, IfOk, OnOk, string_bytes};
ghost use Rattle.kernel.specs.View.{state};
ghost use Rattle.history.specs.History.{answers, after};
ghost use Rattle.player.specs.Encoded.{ReadsBack};
ghost use Rattle.player.specs.Parsed.{parsed};
ghost use Rattle.player.specs.Played.{opening, Lawfully, played};
ghost use Rattle.player.specs.Printed.{text};
ghost use Rattle.player.specs.Sample.{Sample, BadRecords};

pub mod lines;
pub mod records;
pub mod scripts;

use history::History;
use history::creations::Creation;
use kernel::calls::Call;
use kernel::phases::{Kernel, Started};
use lines::{Line, answer_lines, with_last};
use scripts::parse;
use std::alloc::{AllocError, Global};

// Task 1 at priority 100 and task 2 at priority 200, and then the calls. Neither create is refused: `sample_session_prints` computes that.
#[tactic(auto, unfolding(crate::specs::Played::opening), using(crate::proofs::Sessions::lawfully))]
fn session(calls: &[Call], heap: Global) -> Result<History, AllocError>
    ensures answered { IfOk result (λ h. h.answers.items ≡ answers opening calls.now) }
    ensures left { IfOk result (λ h. state h.kernel ≡ after opening calls.now) }
    ensures law { IfOk result (λ h. Lawfully calls.now (state h.kernel)) }
{
    let creates = [
        Creation {
            task: 1,
            priority: 100,
        },
        Creation {
            task: 2,
            priority: 200,
        },
    ];
    history::run(&creates, calls, heap)
}

// A line for each call of the script, and a last one for a bad record.
pub fn play(bytes: &[u8], heap: Global) -> Result<Vec<Line>, AllocError>
    ensures lines { IfOk result (λ v. v.items ≡ played bytes.now) }
    ensures law { OnOk result (Lawfully (parsed bytes.now).0 (after opening (parsed bytes.now).0)) }
{
    let script = parse(bytes, heap)?;
    let history = session(&script.calls, heap)?;
    let lines = answer_lines(&script.calls, &history.answers, heap)?;
    with_last(lines, script.fault, history.kernel.running())
}

// The kernel that a script leaves: a bad record makes no call.
pub fn kernel_after(bytes: &[u8], heap: Global) -> Result<Kernel<Started>, AllocError>
    ensures left { IfOk result (λ k. state k ≡ after opening (parsed bytes.now).0) }
    ensures law { IfOk result (λ k. Lawfully (parsed bytes.now).0 (state k)) }
{
    let script = parse(bytes, heap)?;
    let history = session(&script.calls, heap)?;
    Ok(history.kernel)
}

// The lines as text.
pub fn printed(bytes: &[u8], heap: Global) -> Result<String, AllocError>
    ensures text { IfOk result (λ s. string_bytes s ≡ text bytes.now) }
    ensures law { OnOk result (Lawfully (parsed bytes.now).0 (after opening (parsed bytes.now).0)) }
{
    let lines = play(bytes, heap)?;
    let mut page = String::new(heap);
    for line in &lines {
        writeln!(page, "{line}")?;
    }
    Ok(page)
}

// A script that was written from calls is read as those calls.
pub fn scripts_read_back() -> u8
    ensures { ReadsBack }
{
    0
}

// The sample session, by computation on its bytes.
pub fn sample_session_prints() -> u8
    ensures { Sample }
{
    0
}

// The text of a script that ends in a bad record of each kind.
pub fn bad_records_print() -> u8
    ensures { BadRecords }
{
    0
}
