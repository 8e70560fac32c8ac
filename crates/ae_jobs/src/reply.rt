// What a job answers.

ghost use Rattle.std.specs.Prelude.{◌≡◌, ℕ, List, IfOk, string_bytes};
ghost use Rattle.ae_compile.specs.Costing.{IsCostFault};
ghost use Rattle.ae_compile.specs.Programs.{IsTypedFault};
ghost use Rattle.ae_jobs.specs.Programs.{IsRefusal};
ghost use Rattle.ae_jobs.specs.Refusals.{refusal_line};
ghost use Rattle.ae_jobs.specs.Schedules.{IsCostRefusal};

use crate::refusal::refusal_line;
use crate::status::Status;
use ae_compile::{CompileFault, OutOfMemory};
use std::alloc::Global;

/// The greatest size of a run.
pub const RUN_LIMIT: u64 = 4_194_304;

/// What a job answers, and what it writes.
#[derive(Drop)]
pub struct Reply {
    pub status: Status,
    pub text: String,
}

/// The reply to what is refused.
pub fn refused(alloc: Global, status: Status) -> Result<Reply, OutOfMemory>
    ensures { IfOk result (λ reply. (reply.status ≡ status) × (string_bytes reply.text ≡ refusal_line status)) }
{
    let text = refusal_line(alloc, status)?;
    Ok(Reply { status, text })
}

/// The reply to a program that has no circuit; none where there was no memory.
pub fn refused_program(alloc: Global, fault: CompileFault) -> Result<Reply, OutOfMemory>
    ensures untyped { IfOk result (λ reply. (part : List ℕ) → IsTypedFault part fault → IsRefusal part reply.status × (string_bytes reply.text ≡ refusal_line reply.status)) }
    ensures uncosted { IfOk result (λ reply. (limit : ℕ) (part : List ℕ) (slowdown : ℕ) → IsCostFault limit part slowdown fault → IsCostRefusal limit part slowdown reply.status × (string_bytes reply.text ≡ refusal_line reply.status)) }
{
    match fault {
        CompileFault::BadLine { line } => refused(alloc, Status::BadLine { line }),
        CompileFault::BadType { line } => refused(alloc, Status::BadType { line }),
        CompileFault::TooLarge { line } => refused(alloc, Status::TooLarge { line }),
        CompileFault::NoSchedule { line } => refused(alloc, Status::NoSchedule { line }),
        CompileFault::Memory => Err(OutOfMemory),
    }
}
