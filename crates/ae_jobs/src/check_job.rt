// The job `check`.

ghost use Rattle.std.specs.Prelude.{◌<◌, IfOk, length, string_bytes};
ghost use Rattle.ae_jobs.specs.Checking.{IsChecked};

use crate::check_text::check_text;
use crate::reply::{Reply, refused_program};
use crate::status::Status;
use ae_compile::{OutOfMemory, typed};
use std::alloc::Global;

/// The types of all lines, or the refusal of the first line that has none; without memory there is no reply.
pub fn check(alloc: Global, part: &[u8]) -> Result<Reply, OutOfMemory>
    requires { length part.now < 4294967295 }
    ensures { IfOk result (λ reply. IsChecked part.now reply.status (string_bytes reply.text)) }
{
    match typed(alloc, part) {
        Ok(p) => {
            let text = check_text(alloc, &p)?;
            Ok(Reply {
                status: Status::Ok,
                text,
            })
        }
        Err(fault) => refused_program(alloc, fault),
    }
}
