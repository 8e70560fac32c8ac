// The job `least`.

ghost use Rattle.std.specs.Prelude.{◌<◌, IfOk, length, string_bytes};
ghost use Rattle.ae_seq.specs.ProgramTree.{program_tree};
ghost use Rattle.ae_jobs.specs.LeastAnswers.{IsLeast, IsLeastOf};

use crate::reply::{Reply, refused, refused_program};
use crate::status::Status;
use ae_compile::{OutOfMemory, typed};
use ae_least::{LeastFault, least_text};
use ae_seq::Typed;
use ae_sttype::Slowdown;
use std::alloc::Global;

// The text of a typed program, or a refusal.
fn least_of(alloc: Global, p: &Typed, slowdown: Slowdown) -> Result<Reply, OutOfMemory>
    ensures { IfOk result (λ reply. IsLeastOf (program_tree p.now) slowdown reply.status (string_bytes reply.text)) }
{
    match least_text(alloc, p, slowdown) {
        Ok(text) => Ok(Reply {
            status: Status::Ok,
            text,
        }),
        Err(LeastFault::NotMoves { line }) => refused(alloc, Status::NotMoves { line }),
        Err(LeastFault::NoSchedule { line }) => refused(alloc, Status::NoSchedule { line }),
        Err(LeastFault::Memory) => Err(OutOfMemory),
    }
}

/// The least latency of the program, and the words that show it, or a refusal; without memory there is no reply. No load is
/// too large.
pub fn least(alloc: Global, part: &[u8], slowdown: Slowdown) -> Result<Reply, OutOfMemory>
    requires { length part.now < 4294967295 }
    ensures { IfOk result (λ reply. IsLeast part.now slowdown reply.status (string_bytes reply.text)) }
{
    match typed(alloc, part) {
        Ok(p) => least_of(alloc, &p, slowdown),
        Err(fault) => refused_program(alloc, fault),
    }
}
