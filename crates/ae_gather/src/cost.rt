// How many cells, memories, registers and comparisons a plan takes.

ghost use Rattle.std.specs.Prelude.{◌≡◌, ◌<◌, ◌≤◌, ◌+◌, ◌*◌, ◌^◌, ◌∷◌, [], if◌then◌else◌, ℕ, List, length, count_by, sum_by, nat_lt, Some, slice_get};
ghost use Rattle.ae_clocked.specs.Delays.{greatest_of, line_cells};
ghost use Rattle.ae_clocked.specs.Rings.{rings};
ghost use Rattle.ae_columns.specs.Counts.{early_count, steps_tests};
ghost use Rattle.ae_gather.specs.Counts.{line_registers, reader_count, reader_registers};
ghost use Rattle.ae_columns.specs.Plans.{line_mems, steps_cells};
ghost use Rattle.ae_gather.specs.Reads.{ring_count};

use crate::plan::{Ages, Steps};
use crate::reads::Reads;
use ae_columns::Step;

fn greatest(ages: &[u32]) -> u32
    ensures { result ≡ greatest_of ages.now }
{
    let mut most = 0u32;
    for age in ages {
        most = most.max(*age);
    }
    most
}

fn is_late(age: u32) -> u64
    ensures is { result ≡ count_by (λ tap. nat_lt 0 tap) (age ∷ []) }
    ensures most { result ≤ 1 }
{
    if age > 0 { 1 } else { 0 }
}

fn late_count(ages: &[u32]) -> u64
    requires few { length ages.now < 2 ^ 32 }
    ensures count { result ≡ count_by (λ tap. nat_lt 0 tap) ages.now }
    ensures few { result ≤ length ages.now }
{
    let mut count = 0u64;
    for age in ages {
        count += is_late(*age);
    }
    count
}

fn line_cost(ages: &[u32]) -> u64
    requires few { length ages.now < 2 ^ 32 }
    ensures { result ≡ line_cells ages.now }
{
    8 * u64::from(greatest(ages)) + 4 * late_count(ages)
}

/// The most cells of the lines, where that number holds them.
pub fn lines_cost(lines: &[Ages]) -> u64
    requires few { (q : ℕ) (ages : List ℕ) → slice_get lines.now q ≡ Some ages → length ages < 2 ^ 32 }
    ensures low { result ≤ sum_by line_cells lines.now }
    ensures high { result < 18446744073709551615 → sum_by line_cells lines.now ≤ result }
{
    let mut cost = 0u64;
    for q in 0..lines.len() {
        cost = cost.saturating_add(line_cost(lines[q].all()));
    }
    cost
}

fn steps_cost(steps: &[Step]) -> u64
    ensures low { result ≤ steps_cells steps.now }
    ensures high { result < 18446744073709551615 → steps_cells steps.now ≤ result }
{
    let more = (steps.len() as u64).saturating_sub(1);
    more.saturating_mul(11).saturating_add(1)
}

/// The most cells of the choices, where that number holds them.
pub fn columns_cost(columns: &[Steps]) -> u64
    ensures low { result ≤ sum_by steps_cells columns.now }
    ensures high { result < 18446744073709551615 → sum_by steps_cells columns.now ≤ result }
{
    let mut cost = 0u64;
    for q in 0..columns.len() {
        cost = cost.saturating_add(steps_cost(columns[q].all()));
    }
    cost
}

fn line_rings(ages: &[u32]) -> u64
    ensures { result ≡ line_mems ages.now }
{
    let delay = greatest(ages);
    if delay < 8 {
        0
    } else {
        (u64::from(delay) + 4095) / 4096
    }
}

/// The most memories of the lines, where that number holds them.
pub fn lines_rings(lines: &[Ages]) -> u64
    ensures low { result ≤ sum_by line_mems lines.now }
    ensures high { result < 18446744073709551615 → sum_by line_mems lines.now ≤ result }
{
    let mut count = 0u64;
    for q in 0..lines.len() {
        count = count.saturating_add(line_rings(lines[q].all()));
    }
    count
}

pub fn one_if(has: bool) -> u64
    ensures { result ≡ (if has then 1 else 0) }
{
    if has { 1 } else { 0 }
}

/// How many columns have a ring, where that number holds it.
pub fn rings_count(rings: &[bool]) -> u64
    ensures low { result ≤ ring_count rings.now }
    ensures high { result < 18446744073709551615 → ring_count rings.now ≤ result }
{
    let mut count = 0u64;
    for q in 0..rings.len() {
        count = count.saturating_add(one_if(rings[q]));
    }
    count
}

fn line_registers(ages: &[u32]) -> u64
    ensures { result ≡ line_registers ages.now }
{
    u64::from(greatest(ages).min(7))
}

/// The most registers of the lines, where that number holds them.
pub fn lines_registers(lines: &[Ages]) -> u64
    ensures low { result ≤ sum_by line_registers lines.now }
    ensures high { result < 18446744073709551615 → sum_by line_registers lines.now ≤ result }
{
    let mut count = 0u64;
    for q in 0..lines.len() {
        count = count.saturating_add(line_registers(lines[q].all()));
    }
    count
}

/// The most comparisons of the choices, where that number holds them.
pub fn columns_tests(columns: &[Steps]) -> u64
    ensures low { result ≤ sum_by steps_tests columns.now }
    ensures high { result < 18446744073709551615 → sum_by steps_tests columns.now ≤ result }
{
    let mut count = 0u64;
    for q in 0..columns.len() {
        count = count.saturating_add((columns[q].all().len() as u64).saturating_sub(1));
    }
    count
}

/// The steps of the choices, where that number holds them.
pub fn columns_steps(columns: &[Steps]) -> u64
    ensures low { result ≤ sum_by length columns.now }
    ensures high { result < 18446744073709551615 → sum_by length columns.now ≤ result }
{
    let mut count = 0u64;
    for q in 0..columns.len() {
        count = count.saturating_add(columns[q].all().len() as u64);
    }
    count
}

/// How many columns are chosen early, where that number holds it.
pub fn early_count(early: &[bool]) -> u64
    ensures low { result ≤ early_count early.now }
    ensures high { result < 18446744073709551615 → early_count early.now ≤ result }
{
    rings_count(early)
}

fn reader_registers(rings: &[bool], from: Option<u32>) -> u64
    ensures { result ≡ reader_registers rings.now from }
{
    match from {
        Some(x) => one_if((x as usize) < rings.len() && rings[x as usize]),
        None => 0,
    }
}

/// The registers of the columns that read rings, where that number holds them.
pub fn readers_count(reads: &Reads) -> u64
    ensures low { result ≤ reader_count reads.now }
    ensures high { result < 18446744073709551615 → reader_count reads.now ≤ result }
{
    let mut count = 0u64;
    for q in 0..reads.from.len() {
        count = count.saturating_add(reader_registers(&reads.rings, reads.from[q]));
    }
    count
}
