// Reads whole scripts.
ghost use Rattle.std.specs.Prelude.{◌≡◌, IfOk};
ghost use Rattle.player.specs.Parsed.{Reading, parsed};

use crate::records::{BadRecord, decode};
use kernel::calls::Call;
use std::alloc::{AllocError, Global};

// The calls before the first bad record, or all of them, and what that record fails.
#[derive(Debug, Drop)]
pub struct Script {
    pub calls: Vec<Call>,
    pub fault: Option<BadRecord>,
}

// A record says where the next one begins, so this is a loop over what is left.
pub fn parse(bytes: &[u8], heap: Global) -> Result<Script, AllocError>
    ensures { IfOk result (λ s. ◌≡◌ {A = Reading} (s.calls.items, s.fault) (parsed bytes.now)) }
{
    let mut calls = Vec::new(heap);
    let mut rest = bytes;
    while !rest.is_empty() {
        match decode(rest) {
            Ok((call, more)) => {
                calls.push(call)?;
                rest = more;
            }
            Err(bad) => {
                return Ok(Script {
                    calls,
                    fault: Some(bad),
                });
            }
        }
    }
    Ok(Script { calls, fault: None })
}
