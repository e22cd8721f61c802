use crate::{Failed, StreamSink, StreamSource, read_input, write_line};
use std::io::{self, BufWriter};
use std::test::Fail;

#[test]
fn a_line_goes_through_a_pipe(rt: HostRuntime) -> Result<(), Fail> {
    let (reader, writer) = io::pipe(&rt)?;
    {
        let mut sink = StreamSink::new(writer);
        assert_eq!(rt; write_line(&mut sink, b"a line\n"), Ok(()));
    }
    let mut source = StreamSource::new(reader);
    let bytes = read_input(rt.alloc(), &mut source, 7)?;
    assert_eq!(rt; bytes.as_slice(), b"a line\n".as_slice());
    Ok(())
}

#[test]
fn a_writer_that_takes_nothing_has_failed(rt: HostRuntime) {
    let mut room = [0u8; 3];
    let mut sink = StreamSink::new(&mut room[..]);
    assert_eq!(rt; write_line(&mut sink, b"a line\n"), Err(Failed));
}

#[test]
fn a_writer_that_cannot_flush_has_failed(rt: HostRuntime) -> Result<(), Fail> {
    let mut room = [0u8; 3];
    let mut sink = StreamSink::new(BufWriter::new(rt.alloc(), &mut room[..])?);
    assert_eq!(rt; write_line(&mut sink, b"a line\n"), Err(Failed));
    Ok(())
}
