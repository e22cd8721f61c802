use crate::{run, run_surely};
use byte_streams::{MemorySink, MemorySource, SureSink, SureSource};
use std::alloc::{AllocError, Global};
use std::test::Fail;

const NOT_JSON: &[u8] = b"{\"fault\":\"NotJson\"}\n";

fn prepare_word(alloc: Global) -> Result<Vec<String>, AllocError> {
    let mut words = Vec::new(alloc);
    words.push(String::from_str(alloc, "prepare")?)?;
    Ok(words)
}

// The status, and what was written, with one byte a call, where these calls fail.
pub(crate) fn ran(
    alloc: Global,
    request: &[u8],
    reads: Vec<u64>,
    writes: Vec<u64>,
) -> Result<(u8, MemorySink), AllocError> {
    let words = prepare_word(alloc)?;
    let mut source = MemorySource::new(request.to_vec(alloc)?, 1, reads);
    let mut sink = MemorySink::new(alloc, 4096, 1, writes)?;
    let status = run(alloc, &words, &mut source, &mut sink);
    Ok((status, sink))
}

#[test]
fn refuses_what_is_no_request(rt: HostRuntime) -> Result<(), Fail> {
    let alloc = rt.alloc();
    let cases = [
        (b"{".as_slice(), NOT_JSON),
        (b"\"\xff\"".as_slice(), NOT_JSON),
        (
            b"[]".as_slice(),
            b"{\"fault\":\"BadRequest\",\"key\":\"\"}\n".as_slice(),
        ),
        (
            b"{}".as_slice(),
            b"{\"fault\":\"BadRequest\",\"key\":\"module\"}\n".as_slice(),
        ),
        (
            b"{\"module\":\"\",\"x\":1}".as_slice(),
            b"{\"fault\":\"BadRequest\",\"key\":\"x\"}\n".as_slice(),
        ),
    ];
    for (request, line) in cases {
        let (status, sink) = ran(alloc, request, Vec::new(alloc), Vec::new(alloc))?;
        assert_eq!(rt; status, 1);
        assert_eq!(rt; sink.written(), line);
    }
    Ok(())
}

#[test]
fn needs_its_word(rt: HostRuntime) -> Result<(), Fail> {
    let alloc = rt.alloc();
    let words: Vec<String> = Vec::new(alloc);
    let mut source = MemorySource::new(b"{".to_vec(alloc)?, 1, vec![in alloc; 0u64]?);
    let mut sink = MemorySink::new(alloc, 4096, 1, Vec::new(alloc))?;
    assert_eq!(rt; run(alloc, &words, &mut source, &mut sink), 2);
    assert_eq!(rt; sink.written().len(), 0);
    Ok(())
}

#[test]
fn a_read_fails(rt: HostRuntime) -> Result<(), Fail> {
    let alloc = rt.alloc();
    let (status, sink) = ran(alloc, b"{", vec![in alloc; 0u64]?, Vec::new(alloc))?;
    assert_eq!(rt; status, 3);
    assert_eq!(rt; sink.written().len(), 0);
    Ok(())
}

#[test]
fn each_write_fails_in_turn(rt: HostRuntime) -> Result<(), Fail> {
    let alloc = rt.alloc();
    for at in 0..NOT_JSON.len() {
        let (status, sink) = ran(alloc, b"{", Vec::new(alloc), vec![in alloc; at as u64]?)?;
        assert_eq!(rt; status, 4);
        assert_eq!(rt; sink.written(), &NOT_JSON[..at]);
    }
    Ok(())
}

#[test]
fn one_byte_too_many(rt: HostRuntime) -> Result<(), Fail> {
    let alloc = rt.alloc();
    let words = prepare_word(alloc)?;
    let blanks = vec![in alloc; b' '; 8388609]?;
    let mut source = SureSource::new(blanks);
    assert_eq!(rt; run(alloc, &words, &mut source, &mut SureSink::new()), 6);
    Ok(())
}

#[test]
fn the_most_bytes_are_read(rt: HostRuntime) -> Result<(), Fail> {
    let alloc = rt.alloc();
    let words = prepare_word(alloc)?;
    let blanks = vec![in alloc; b' '; 8388608]?;
    assert_eq!(rt; run_surely(alloc, &words, blanks), 1);
    Ok(())
}
