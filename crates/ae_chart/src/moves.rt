// The load of a program that only moves words.

use ae_compile::{CompileFault, typed};
use ae_fuse::fuse;
use ae_rewrite::{PlanFault, schedule};
use ae_seq::Typed;
use ae_sttype::Slowdown;
use std::alloc::{AllocError, Global};

// The load of a program at a slowdown; none where a line computes or has no layout.
fn load_at(alloc: Global, program: &Typed, slowdown: Slowdown) -> Result<Option<u64>, AllocError> {
    slowdown.limits();
    match schedule(alloc, program, slowdown) {
        Ok(schedule) => match fuse(alloc, program, &schedule)? {
            Some(moves) => Ok(Some(moves.load())),
            None => Ok(None),
        },
        Err(PlanFault::NoSchedule { line: _ }) => Ok(None),
        Err(PlanFault::Memory) => Err(AllocError),
    }
}

/// The load of a program that only moves words, of one move for each result; none of one that computes, or has no types or no
/// layouts.
pub fn load_of_moves(
    alloc: Global,
    part: &[u8],
    slowdown: Slowdown,
) -> Result<Option<u64>, AllocError> {
    if part.len() > 16_777_216 {
        return Ok(None);
    }
    match typed(alloc, part) {
        Ok(program) => load_at(alloc, &program, slowdown),
        Err(CompileFault::Memory) => Err(AllocError),
        Err(_) => Ok(None),
    }
}
