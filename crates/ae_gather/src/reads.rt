// Which output columns read their words from a ring of an input column, one word in each clock.

ghost use Rattle.std.specs.Prelude.{◌≡◌, ◌<◌, ◌≤◌, length, IfOk};
ghost use Rattle.ae_columns.specs.Plans.{AreWithin, IsIn};

use ae_moves::{Source, Trip};
use std::alloc::{AllocError, Global};

/// The input column whose words each output column reads from a ring, which input columns have a ring, and the bits of the
/// rings' places.
#[derive(Drop)]
pub struct Reads {
    pub from: Vec<Option<u32>>,
    pub rings: Vec<bool>,
    pub bits: u32,
}

/// The most output columns that read a ring: each keeps what it reads in a register, and one more keeps the last word.
const MOST_READERS: u32 = 6;

/// How an output column uses late words of far columns: not at all, of one, or of several.
#[derive(Clone, Copy)]
enum Use {
    Never,
    Of(u32),
    Several,
}

fn zeros(alloc: Global, count: usize) -> Result<Vec<u32>, AllocError>
    ensures { IfOk result (λ v. length v.items ≡ count) }
{
    let mut all = Vec::new(alloc);
    for i in 0..count {
        all.push(0)?;
    }
    Ok(all)
}

/// How old a word is when it is due.
fn age(trip: &Trip, d: u32, clock: u32) -> u32
    requires latency { d ≤ 4096 }
    requires clock { trip.now.clock < 4096 }
{
    (trip.clock + d).saturating_sub(clock)
}

fn grow(all: &mut Vec<u32>, trip: &Trip, d: u32)
    requires latency { d ≤ 4096 }
    requires clock { trip.now.clock < 4096 }
    requires source { IsIn (length all.old.items) trip.now.source }
    ensures { length all.new.items ≡ length all.old.items }
{
    if let Source::Place { clock, column } = trip.source {
        let at = column as usize;
        let most = all[at].max(age(trip, d, clock));
        all[at] = most;
    }
}

/// The greatest age at which each input column is used.
fn all_oldest(
    alloc: Global,
    trips: &[Trip],
    d: u32,
    ins: u32,
    outs: u32,
) -> Result<Vec<u32>, AllocError>
    requires latency { d ≤ 4096 }
    requires within { AreWithin 4096 d ins outs trips.now }
    ensures { IfOk result (λ v. length v.items ≡ ins) }
{
    let mut all = zeros(alloc, ins as usize)?;
    for trip in trips {
        grow(&mut all, trip, d);
    }
    Ok(all)
}

/// The use of one word more.
fn used_more(was: Use, column: u32) -> Use {
    match was {
        Use::Never => Use::Of(column),
        Use::Of(x) => { if x == column { was } else { Use::Several } }
        Use::Several => was,
    }
}

fn use_more(all: &mut Vec<Use>, trip: &Trip, d: u32, oldest: &[u32])
    requires latency { d ≤ 4096 }
    requires clock { trip.now.clock < 4096 }
    requires column { trip.now.column < length all.old.items }
    requires source { IsIn (length oldest.now) trip.now.source }
    ensures { length all.new.items ≡ length all.old.items }
{
    if let Source::Place { clock, column } = trip.source {
        let most = oldest[column as usize];
        if most >= 8 && most <= 4096 && age(trip, d, clock) >= 2 {
            let q = trip.column as usize;
            let more = used_more(all[q], column);
            all[q] = more;
        }
    }
}

fn all_uses(
    alloc: Global,
    trips: &[Trip],
    d: u32,
    oldest: &[u32],
    outs: u32,
) -> Result<Vec<Use>, AllocError>
    requires latency { d ≤ 4096 }
    requires within { AreWithin 4096 d (length oldest.now) outs trips.now }
    ensures { IfOk result (λ v. length v.items ≡ outs) }
{
    let mut all = Vec::new(alloc);
    for i in 0..outs {
        all.push(Use::Never)?;
    }
    for trip in trips {
        use_more(&mut all, trip, d, oldest);
    }
    Ok(all)
}

/// One reader more where the column has none of its words yet, and too many where it reads from others too.
fn reader_more(counts: &mut Vec<u32>, seen: &mut Vec<u32>, trip: &Trip, d: u32, uses: &[Use])
    requires latency { d ≤ 4096 }
    requires clock { trip.now.clock < 4096 }
    requires column { trip.now.column < length uses.now }
    requires long { length seen.old.items ≡ length uses.now }
    requires source { IsIn (length counts.old.items) trip.now.source }
    ensures counts { length counts.new.items ≡ length counts.old.items }
    ensures seen { length seen.new.items ≡ length seen.old.items }
{
    if let Source::Place { clock, column } = trip.source {
        let q = trip.column as usize;
        let at = column as usize;
        if age(trip, d, clock) >= 2 {
            match uses[q] {
                Use::Never => {}
                Use::Of(_) => {
                    counts[at] = counts[at].saturating_add(1 - seen[q].min(1));
                    seen[q] = 1;
                }
                Use::Several => counts[at] = counts[at].saturating_add(MOST_READERS + 1),
            }
        }
    }
}

/// How many output columns read each input column, and too many where one of them reads others beside it.
fn all_readers(
    alloc: Global,
    trips: &[Trip],
    d: u32,
    uses: &[Use],
    ins: u32,
) -> Result<Vec<u32>, AllocError>
    requires latency { d ≤ 4096 }
    requires within { AreWithin 4096 d ins (length uses.now) trips.now }
    ensures { IfOk result (λ v. length v.items ≡ ins) }
{
    let mut counts = zeros(alloc, ins as usize)?;
    let mut seen = zeros(alloc, uses.len())?;
    for trip in trips {
        reader_more(&mut counts, &mut seen, trip, d, uses);
    }
    Ok(counts)
}

/// How far a ring with so many readers reaches back. One that is read at several places is block RAM only from some size on.
fn reach_of(readers: u32, oldest: u32) -> u32 {
    if readers > 1 { oldest.max(64) } else { oldest }
}

fn has_ring(readers: u32) -> bool {
    readers >= 1 && readers <= MOST_READERS
}

fn greatest_reach(counts: &[u32], oldest: &[u32]) -> u32
    requires { length counts.now ≡ length oldest.now }
{
    let mut most = 0u32;
    for x in 0..counts.len() {
        if has_ring(counts[x]) {
            most = most.max(reach_of(counts[x], oldest[x]));
        }
    }
    most
}

/// The bits of the places of rings that reach so far back.
fn bits_of(reach: u32) -> u32
    ensures low { 3 ≤ result }
    ensures high { result ≤ 12 }
{
    for bits in 3..12u32 {
        if reach <= 1u32 << bits {
            return bits;
        }
    }
    12
}

fn all_rings(alloc: Global, counts: &[u32]) -> Result<Vec<bool>, AllocError>
    ensures { IfOk result (λ v. length v.items ≡ length counts.now) }
{
    let mut rings = Vec::new(alloc);
    for x in 0..counts.len() {
        rings.push(has_ring(counts[x]))?;
    }
    Ok(rings)
}

fn only(used: Use) -> Option<u32> {
    match used {
        Use::Of(x) => Some(x),
        _ => None,
    }
}

fn all_from(alloc: Global, uses: &[Use]) -> Result<Vec<Option<u32>>, AllocError>
    ensures { IfOk result (λ v. length v.items ≡ length uses.now) }
{
    let mut from = Vec::new(alloc);
    for q in 0..uses.len() {
        from.push(only(uses[q]))?;
    }
    Ok(from)
}

/// Which columns read from rings: those that use late words of one far column alone.
pub fn which_read(
    alloc: Global,
    trips: &[Trip],
    d: u32,
    ins: u32,
    outs: u32,
) -> Result<Reads, AllocError>
    requires latency { d ≤ 4096 }
    requires within { AreWithin 4096 d ins outs trips.now }
    ensures from { IfOk result (λ r. length r.from.items ≡ outs) }
    ensures rings { IfOk result (λ r. length r.rings.items ≡ ins) }
    ensures low { IfOk result (λ r. 3 ≤ r.bits) }
    ensures high { IfOk result (λ r. r.bits ≤ 12) }
{
    let oldest = all_oldest(alloc, trips, d, ins, outs)?;
    let uses = all_uses(alloc, trips, d, &oldest, outs)?;
    let counts = all_readers(alloc, trips, d, &uses, ins)?;
    let rings = all_rings(alloc, &counts)?;
    let from = all_from(alloc, &uses)?;
    let bits = bits_of(greatest_reach(&counts, &oldest));
    Ok(Reads { from, rings, bits })
}
