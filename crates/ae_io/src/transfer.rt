// All bytes of a source, and all bytes to a sink.

ghost use Rattle.std.specs.Prelude.{◌≡◌, ◌+◌, ◌^◌, ◌<◌, ◌≤◌, IfOk, OnOk, OnErr, IsErrOf, vec_len};
ghost use Rattle.ae_io.specs.declared.transfer.LoadFault.TheVariants.{Read, Memory};
ghost use Rattle.ae_io.specs.Counts.{Rose, Same, raised};
ghost use Rattle.ae_io.specs.Told.{TakesCount, Appends, AppendsPrefix};
ghost use Rattle.ae_io.specs.Transfer.{put_fault, TakesAll, TakesUpTo};

use crate::{Failed, GiveFault, Sink, Source};
use std::alloc::{AllocError, Global};

/// Why not all of a source was loaded.
#[derive(Clone, Copy, Debug, PartialEq, Eq)]
pub enum LoadFault {
    /// The source failed.
    Read,
    /// The source has more bytes than the limit.
    TooLong,
    /// There was no memory.
    Memory,
}

impl From<AllocError> for LoadFault {
    ghost from_gives = { λ _ e. e ≡ Memory };

    fn from(_: AllocError) -> Self {
        LoadFault::Memory
    }
}

impl From<Failed> for LoadFault {
    ghost from_gives = { λ _ e. e ≡ Read };

    fn from(_: Failed) -> Self {
        LoadFault::Read
    }
}

/// Why not all bytes went to a sink.
#[derive(Clone, Copy, Debug, PartialEq, Eq)]
pub enum PutFault {
    /// The sink failed.
    Write,
    /// The sink had no memory.
    Memory,
}

impl From<GiveFault> for PutFault {
    ghost from_gives = { λ fault e. e ≡ put_fault fault };

    fn from(fault: GiveFault) -> Self {
        match fault {
            GiveFault::Failed => PutFault::Write,
            GiveFault::Memory => PutFault::Memory,
        }
    }
}

// How many bytes are asked for at once.
const BLOCK: usize = 65536;

// So many zeros.
fn zeros(alloc: Global, n: usize) -> Result<Vec<u8>, AllocError>
    ensures { IfOk result (λ v. vec_len v ≡ n) }
{
    vec![in alloc; 0u8; n]
}

/// All bytes that a source has left, at most `limit` of them. `TooLong` comes exactly where there are more: then
/// `limit + 1` bytes were taken. `Read` comes only where the source failed; with every other answer none of its calls did.
/// After `Read` and `Memory` some of the bytes were taken.
pub fn load<S: Source>(alloc: Global, source: &mut S, limit: usize) -> Result<Vec<u8>, LoadFault>
    requires { limit < 2 ^ 32 }

    ensures ok { IfOk result (λ bytes. TakesAll (S.left source.old) (S.left source.new) bytes.items) }
    ensures within { IfOk result (λ bytes. vec_len bytes ≤ limit) }
    ensures too_long { IsErrOf result LoadFault.TooLong → TakesCount (S.left source.old) (S.left source.new) (limit + 1) }
    ensures err { OnErr result (TakesUpTo (S.left source.old) (S.left source.new) (limit + 1)) }
    ensures read { IsErrOf result LoadFault.Read → Rose (S.faults source.old) (S.faults source.new) }
    ensures no_fault { OnOk result (Same (S.faults source.old) (S.faults source.new)) }
    ensures long_no_fault { IsErrOf result LoadFault.TooLong → Same (S.faults source.old) (S.faults source.new) }
    ensures memory_no_fault { IsErrOf result LoadFault.Memory → Same (S.faults source.old) (S.faults source.new) }
    ensures faults_kept { S.faults source.old ≤ S.faults source.new }
{
    let mut block = zeros(alloc, BLOCK)?;
    let mut bytes = Vec::new(alloc);
    loop {
        let room = BLOCK.min(limit + 1 - bytes.len());
        let part = &mut block[..room];
        let n = source.take(part)?;
        if n == 0 {
            return Ok(bytes);
        }
        if n > limit - bytes.len() {
            return Err(LoadFault::TooLong);
        }
        bytes.extend_from_slice(&part[..n])?;
    }
}

/// Gives all bytes to a sink and then finishes, once; where it does, no call of the sink failed. `Write` and `Memory` come
/// only where the sink's count of them rose; then some first bytes were appended.
pub fn put_all<K: Sink>(sink: &mut K, bytes: &[u8]) -> Result<(), PutFault>
    ensures ok { OnOk result (Appends (K.written sink.old) (K.written sink.new) bytes.now) }
    ensures ended { OnOk result (K.ends sink.new ≡ raised (K.ends sink.old)) }
    ensures no_fault { OnOk result (Same (K.faults sink.old) (K.faults sink.new)) }
    ensures no_want { OnOk result (Same (K.wants sink.old) (K.wants sink.new)) }
    ensures prefix { OnErr result (AppendsPrefix (K.written sink.old) (K.written sink.new) bytes.now) }
    ensures no_end { OnErr result (K.ends sink.new ≡ K.ends sink.old) }
    ensures write { IsErrOf result PutFault.Write → Rose (K.faults sink.old) (K.faults sink.new) }
    ensures memory { IsErrOf result PutFault.Memory → Rose (K.wants sink.old) (K.wants sink.new) }
    ensures faults_kept { K.faults sink.old ≤ K.faults sink.new }
    ensures wants_kept { K.wants sink.old ≤ K.wants sink.new }
    ensures ends_kept { K.ends sink.old ≤ K.ends sink.new }
{
    let mut at = 0;
    while at < bytes.len() {
        at += sink.give(&bytes[at..])?;
    }
    sink.finish()?;
    Ok(())
}
