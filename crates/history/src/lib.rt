// Histories: a kernel is opened, furnished and started, and calls are made of it.
#![tactic(auto)]

ghost use Rattle.std.specs.Prelude.{◌≡◌, is_ok, IfOk, OnOk, if◌then◌else◌};
ghost use Rattle.tables.specs.Moves.{fresh};
ghost use Rattle.calls.specs.Steps.{start};
ghost use Rattle.kernel.specs.View.{state};
ghost use Rattle.history.specs.History.{replies, furnish, answers, after, Parts};
ghost use Rattle.history.specs.Law.{Law};
ghost use Rattle.history.specs.Sound.{SoundAlong};

pub mod creations;

use calls::{Answer, Call, Refusal};
use creations::Creation;
use kernel::furnishing::open;
use kernel::phases::{Furnishing, Kernel, Started};
use std::alloc::{AllocError, Global};

// What a history leaves: the kernel after the last call, the reply to each create, and the answer to each call.
#[derive(Drop)]
pub struct History {
    pub kernel: Kernel<Started>,
    pub replies: Vec<Result<(), Refusal>>,
    pub answers: Vec<Answer>,
}

// Makes the creates in order. This loop and that of the calls stay apart: one function that took the create or the call as a closure
// could say nothing of its answers, since such a closure changes the kernel that it holds.
fn make_creates(
    room: &mut Kernel<Furnishing>,
    creates: &[Creation],
    heap: Global,
) -> Result<Vec<Result<(), Refusal>>, AllocError>
    ensures replied { IfOk result (λ v. v.items ≡ replies (state room.old) creates.now) }
    ensures furnished { OnOk result (state room.new ≡ furnish (state room.old) creates.now) }
{
    let mut collected = Vec::with_capacity(heap, creates.len())?;
    for create in creates {
        let reply = room.create(create.task, create.priority);
        collected.push_reserved(reply);
    }
    Ok(collected)
}

// Makes the calls in order. Room for every answer is taken before the first call.
fn make_calls(
    kernel: &mut Kernel<Started>,
    calls: &[Call],
    heap: Global,
) -> Result<Vec<Answer>, AllocError>
    ensures answered { IfOk result (λ v. v.items ≡ answers (state kernel.old) calls.now) }
    ensures moved { state kernel.new ≡ (if is_ok result then after (state kernel.old) calls.now else state kernel.old) }
    ensures sound { OnOk result (SoundAlong (state kernel.old) calls.now) }
{
    let mut gathered = Vec::with_capacity(heap, calls.len())?;
    for call in calls {
        let answer = kernel.call(*call);
        gathered.push_reserved(answer);
    }
    Ok(gathered)
}

// Makes the calls in order on a started kernel, whatever it did before, and keeps their answers. Where memory is wanting, no call was
// made. The loop stands in a function of its own: its proof file would hide a change of this one.
pub fn call_all(
    kernel: &mut Kernel<Started>,
    calls: &[Call],
    heap: Global,
) -> Result<Vec<Answer>, AllocError>
    ensures answered { IfOk result (λ v. v.items ≡ answers (state kernel.old) calls.now) }
    ensures moved { state kernel.new ≡ (if is_ok result then after (state kernel.old) calls.now else state kernel.old) }
    ensures sound { OnOk result (SoundAlong (state kernel.old) calls.now) }
{
    make_calls(kernel, calls, heap)
}

// Starts a kernel that the creates have furnished, and makes the calls.
fn from_start(
    room: Kernel<Furnishing>,
    creates: &[Creation],
    given: Vec<Result<(), Refusal>>,
    calls: &[Call],
    heap: Global,
) -> Result<History, AllocError>
    requires room { state room ≡ furnish fresh creates.now }
    requires replied { given.items ≡ replies fresh creates.now }
    ensures replied { IfOk result (λ h. h.replies.items ≡ replies fresh creates.now) }
    ensures answered { IfOk result (λ h. h.answers.items ≡ answers (start (furnish fresh creates.now)) calls.now) }
    ensures left { IfOk result (λ h. state h.kernel ≡ after (start (furnish fresh creates.now)) calls.now) }
    ensures law { IfOk result (λ h. Law creates.now h.replies.items calls.now h.answers.items (state h.kernel)) }
{
    let mut kernel = room.start();
    let answers = call_all(&mut kernel, calls, heap)?;
    Ok(History {
        kernel,
        replies: given,
        answers,
    })
}

// Opens a kernel, makes the creates, starts it, and makes the calls. Want of memory is an error that loses nothing of the caller's.
pub fn run(creates: &[Creation], calls: &[Call], heap: Global) -> Result<History, AllocError>
    ensures replied { IfOk result (λ h. h.replies.items ≡ replies fresh creates.now) }
    ensures answered { IfOk result (λ h. h.answers.items ≡ answers (start (furnish fresh creates.now)) calls.now) }
    ensures left { IfOk result (λ h. state h.kernel ≡ after (start (furnish fresh creates.now)) calls.now) }
    ensures law { IfOk result (λ h. Law creates.now h.replies.items calls.now h.answers.items (state h.kernel)) }
{
    let mut room = open();
    let replies = make_creates(&mut room, creates, heap)?;
    from_start(room, creates, replies, calls, heap)
}

// One answer to each call, and a history may be made in parts.
pub fn histories_have_parts() -> u8
    ensures { Parts }
{
    0
}
