// Nets taken from others, without a cell. An error comes only for want of memory.

ghost use Rattle.std.specs.Prelude.{◌≡◌, ◌<◌, ◌≤◌, ◌+◌, ◌*◌, length, take, drop, IfOk};
ghost use Rattle.ae_lower.specs.Wiring.{ArePairs, AreParts};

use ae_netlist::NetId;
use ae_ops::Bundle;
use std::alloc::{AllocError, Global};

/// The bundle again.
pub fn copied(alloc: Global, bundle: &Bundle) -> Result<Bundle, AllocError>
    ensures ok { IfOk result (λ b. b ≡ bundle.now) }
{
    let mut out = Vec::new(alloc);
    out.extend_from_slice(bundle.nets())?;
    Ok(Bundle::new(out))
}

/// `count` nets from number `from` on.
pub fn piece(alloc: Global, nets: &[NetId], from: usize, count: usize) -> Result<Bundle, AllocError>
    requires inside { from + count ≤ length nets.now }
    ensures ok { IfOk result (λ b. b ≡ take count (drop from nets.now)) }
{
    let mut out = Vec::new(alloc);
    out.extend_from_slice(&nets[from..from + count])?;
    Ok(Bundle::new(out))
}

/// Of each of `count` stretches of `k` nets, `l` nets from number `from` on.
pub fn parts(
    alloc: Global,
    nets: &[NetId],
    count: usize,
    k: usize,
    from: usize,
    l: usize,
) -> Result<Bundle, AllocError>
    requires long { length nets.now ≡ count * k }
    requires inside { from + l ≤ k }
    ensures parts { IfOk result (λ b. AreParts nets.now count k from l b) }
{
    let mut out = Vec::new(alloc);
    for e in 0..count {
        let first = e * k + from;
        out.extend_from_slice(&nets[first..first + l])?;
    }
    Ok(Bundle::new(out))
}

/// `count` times `k` nets of the one and then `l` of the other.
pub fn pairs(
    alloc: Global,
    first: &[NetId],
    second: &[NetId],
    count: usize,
    k: usize,
    l: usize,
) -> Result<Bundle, AllocError>
    requires first { length first.now ≡ count * k }
    requires second { length second.now ≡ count * l }
    ensures pairs { IfOk result (λ b. ArePairs first.now second.now count k l b) }
{
    let mut out = Vec::new(alloc);
    for e in 0..count {
        out.extend_from_slice(&first[e * k..e * k + k])?;
        out.extend_from_slice(&second[e * l..e * l + l])?;
    }
    Ok(Bundle::new(out))
}
