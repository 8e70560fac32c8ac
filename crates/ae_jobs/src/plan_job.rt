// The jobs `plan` and `cost`.

ghost use Rattle.std.specs.Prelude.{◌≡◌, ◌<◌, IfOk, length, string_bytes};
ghost use Rattle.ae_seq.specs.ProgramTree.{program_tree};
ghost use Rattle.ae_rewrite.specs.StProgramTree.{st_func_trees};
ghost use Rattle.ae_compile.specs.Mains.{HasMain};
ghost use Rattle.ae_jobs.specs.PlanTexts.{plan_text};
ghost use Rattle.ae_jobs.specs.CostTables.{table_text};
ghost use Rattle.ae_jobs.specs.Schedules.{IsPlanned, IsTabled};

use crate::cost_table::{cost_table, fused_table};
use crate::plan_text::plan_text;
use crate::reply::{Reply, refused_program};
use crate::status::Status;
use ae_compile::{Costed, Costs, LOAD_LIMIT, OutOfMemory, cost};
use ae_sttype::Slowdown;
use std::alloc::Global;

fn planned(alloc: Global, costed: &Costed) -> Result<String, OutOfMemory>
    ensures { IfOk result (λ text. HasMain (program_tree costed.now.program) (st_func_trees costed.now.schedule) (λ f s ts. string_bytes text ≡ plan_text costed.now.slowdown (program_tree costed.now.program) f s ts)) }
{
    let func = costed.main_func();
    let instance = costed.main_instance();
    let costs = costed.costs();
    let last = costed.schedule().count() - 1;
    let arrivals = match costs.arrivals(last) {
        Some(arrivals) => arrivals,
        None => unreachable!(),
    };
    let text = plan_text(alloc, costed.slowdown(), costs, func, instance, arrivals)?;
    Ok(text)
}

/// The text of `plan`, or a refusal.
pub fn plan(alloc: Global, part: &[u8], slowdown: Slowdown) -> Result<Reply, OutOfMemory>
    requires { length part.now < 4294967295 }
    ensures { IfOk result (λ reply. IsPlanned part.now slowdown reply.status (string_bytes reply.text)) }
{
    match cost(alloc, part, slowdown, LOAD_LIMIT) {
        Ok(costed) => {
            let text = planned(alloc, &costed)?;
            Ok(Reply {
                status: Status::Ok,
                text,
            })
        }
        Err(fault) => refused_program(alloc, fault),
    }
}

fn tabled(alloc: Global, costed: &Costed) -> Result<String, OutOfMemory>
    ensures { IfOk result (λ text. HasMain (program_tree costed.now.program) (st_func_trees costed.now.schedule) (λ f s ts. string_bytes text ≡ table_text (program_tree costed.now.program) f s ts)) }
{
    let func = costed.main_func();
    let costs = costed.costs();
    match costs {
        Costs::Plain(timing) => cost_table(alloc, &func.nodes, timing),
        Costs::Fused(_) => fused_table(alloc, func.end_line, costs),
    }
}

/// The table of `cost`, or a refusal.
pub fn cost_of_lines(alloc: Global, part: &[u8], slowdown: Slowdown) -> Result<Reply, OutOfMemory>
    requires { length part.now < 4294967295 }
    ensures { IfOk result (λ reply. IsTabled part.now slowdown reply.status (string_bytes reply.text)) }
{
    match cost(alloc, part, slowdown, LOAD_LIMIT) {
        Ok(costed) => {
            let text = tabled(alloc, &costed)?;
            Ok(Reply {
                status: Status::Ok,
                text,
            })
        }
        Err(fault) => refused_program(alloc, fault),
    }
}
