// The job `stall`.

ghost use Rattle.std.specs.Prelude.{◌<◌, IfOk, length, string_bytes};
ghost use Rattle.ae_jobs.specs.Schedules.{IsStallReply};

use crate::reply::{Reply, refused_program};
use crate::status::Status;
use ae_compile::{OutOfMemory, compile_stalled, cost_stalled, stalled_text};
use ae_sttype::Slowdown;
use std::alloc::Global;

/// The text of the program's module with a stall input, or a refusal; without memory there is no reply.
pub fn stall(alloc: Global, part: &[u8], slowdown: Slowdown) -> Result<Reply, OutOfMemory>
    requires { length part.now < 4294967295 }
    ensures { IfOk result (λ reply. IsStallReply part.now slowdown reply.status (string_bytes reply.text)) }
{
    match cost_stalled(alloc, part, slowdown) {
        Ok(costed) => {
            let compiled = compile_stalled(alloc, costed)?;
            let text = stalled_text(alloc, &compiled)?;
            Ok(Reply {
                status: Status::Ok,
                text,
            })
        }
        Err(fault) => refused_program(alloc, fault),
    }
}
