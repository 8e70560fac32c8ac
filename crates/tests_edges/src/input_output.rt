// What sources and sinks do where something fails, and over the standard library's readers and writers.

ghost use Rattle.std.specs.Prelude.{◌≤◌};

use ae_io::{
    LoadFault, MemSink, MemSource, PutFault, StdSink, StdSource, SureSink, SureSource, load,
    put_all,
};
use std::alloc::{AllocError, Global};
use std::test::Fail;

#[test]
fn a_source_is_loaded_whole_or_not_at_all(rt: HostRuntime) -> Result<(), Fail> {
    let alloc = rt.alloc();
    let failing_second: [u32; 1] = [1];
    let cases: [(u32, &[u32], usize, Result<&[u8], LoadFault>); 8] = [
        (1, &[], 3, Ok(b"abc")),
        (3, &[], 3, Ok(b"abc")),
        (100000, &[], 100, Ok(b"abc")),
        (1, &[], 2, Err(LoadFault::TooLong)),
        (100000, &[], 2, Err(LoadFault::TooLong)),
        (1, &[], 0, Err(LoadFault::TooLong)),
        (1, &failing_second, 3, Err(LoadFault::Read)),
        (3, &failing_second, 3, Err(LoadFault::Read)),
    ];
    for (piece, failing, limit, want) in cases {
        let mut source = MemSource::new(alloc, b"abc", piece, failing)?;
        let got = load(alloc, &mut source, limit);
        let got = match &got {
            Ok(bytes) => Ok(bytes.as_slice()),
            Err(fault) => Err(*fault),
        };
        assert!(rt; got == want, "piece {piece}, limit {limit}");
    }
    Ok(())
}

fn sevens(alloc: Global, n: usize) -> Result<Vec<u8>, AllocError> {
    vec![in alloc; 7u8; n]
}

// Whether all bytes are loaded from a source that gives so many with each call.
fn is_loaded_whole(alloc: Global, bytes: &[u8], piece: u32) -> Result<bool, AllocError>
    requires { 1 ≤ piece }
{
    let mut source = MemSource::new(alloc, bytes, piece, &[])?;
    let loaded = load(alloc, &mut source, 200000);
    Ok(match &loaded {
        Ok(loaded) => loaded.as_slice() == bytes,
        Err(_) => false,
    })
}

#[test]
fn a_long_source_is_loaded_in_blocks(rt: HostRuntime) -> Result<(), Fail> {
    let alloc = rt.alloc();
    let bytes = sevens(alloc, 200000)?;
    assert!(rt; is_loaded_whole(alloc, &bytes, 1000)?);
    assert!(rt; is_loaded_whole(alloc, &bytes, 65536)?);
    assert!(rt; is_loaded_whole(alloc, &bytes, 70000)?);
    Ok(())
}

#[test]
fn a_sink_has_all_bytes_or_the_first_of_them(rt: HostRuntime) -> Result<(), Fail> {
    let alloc = rt.alloc();
    let cases: [(&[u32], Result<(), PutFault>, &[u8]); 4] = [
        (&[], Ok(()), b"2 3 4 0\n"),
        (&[1], Err(PutFault::Write), b"2 3 "),
        (&[0], Err(PutFault::Write), b""),
        (&[2], Ok(()), b"2 3 4 0\n"),
    ];
    for (failing, want, written) in cases {
        let mut sink = MemSink::new(alloc, 4, failing)?;
        let got = put_all(&mut sink, b"2 3 4 0\n");
        assert!(rt; got == want && sink.bytes() == written);
    }
    Ok(())
}

#[test]
fn memory_that_never_fails(rt: HostRuntime) -> Result<(), Fail> {
    let alloc = rt.alloc();
    let mut source = SureSource::new(alloc, b"2 3 4 0\n")?;
    let mut sink = SureSink::new(alloc);
    let loaded = match load(alloc, &mut source, 8) {
        Ok(loaded) => loaded,
        Err(_) => Vec::new(alloc),
    };
    assert_eq!(rt; put_all(&mut sink, &loaded), Ok(()));
    assert_eq!(rt; sink.bytes(), b"2 3 4 0\n".as_slice());
    Ok(())
}

#[test]
fn readers_and_writers_of_std(rt: HostRuntime) -> Result<(), Fail> {
    let alloc = rt.alloc();
    let text: &[u8] = b"2 3 4 0\n";
    let mut source = StdSource::new(text);
    let loaded = match load(alloc, &mut source, 8) {
        Ok(loaded) => loaded,
        Err(_) => Vec::new(alloc),
    };
    assert_eq!(rt; loaded.as_slice(), text);

    let mut kept = Vec::new(alloc);
    let mut sink = StdSink::new(&mut kept);
    assert_eq!(rt; put_all(&mut sink, text), Ok(()));
    drop(sink);
    assert_eq!(rt; kept.as_slice(), text);

    // A writer with room for three bytes takes nothing after them.
    let mut room = [0u8; 3];
    let mut sink = StdSink::new(room.as_mut_slice());
    assert_eq!(rt; put_all(&mut sink, text), Err(PutFault::Write));
    Ok(())
}
