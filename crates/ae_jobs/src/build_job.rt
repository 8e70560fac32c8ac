// The job `build`.

ghost use Rattle.std.specs.Prelude.{◌<◌, IfOk, length, string_bytes};
ghost use Rattle.ae_jobs.specs.Schedules.{IsBuilt};

use crate::reply::{Reply, refused_program};
use crate::status::Status;
use ae_compile::{LOAD_LIMIT, OutOfMemory, compile, cost, module_text};
use ae_sttype::Slowdown;
use std::alloc::Global;

/// The text of the program's module, or a refusal; without memory there is no reply.
pub fn build(alloc: Global, part: &[u8], slowdown: Slowdown) -> Result<Reply, OutOfMemory>
    requires { length part.now < 4294967295 }
    ensures { IfOk result (λ reply. IsBuilt part.now slowdown reply.status (string_bytes reply.text)) }
{
    match cost(alloc, part, slowdown, LOAD_LIMIT) {
        Ok(costed) => {
            let compiled = compile(alloc, costed)?;
            let text = module_text(alloc, &compiled)?;
            Ok(Reply {
                status: Status::Ok,
                text,
            })
        }
        Err(fault) => refused_program(alloc, fault),
    }
}
