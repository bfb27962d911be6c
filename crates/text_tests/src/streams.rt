// Sources and sinks: in memory, over readers and writers, and those that never fail.
use crate::made::made;
use crate::same::same;
use crate::sinks::only;
use outside::{Failed, MemSink, MemSource, Sink, Source, StdSink, StdSource, SureSink, SureSource};
use std::io::{self, ErrorKind, Read, Write};
use std::process::Abort;

#[derive(Drop)]
struct Interrupted;

impl Read for Interrupted {
    fn read(&mut self, _buf: &mut [u8]) -> io::Result<usize> {
        Err(ErrorKind::Interrupted.into())
    }
}

// A writer that keeps what it takes until it is flushed: how many bytes it keeps, and how many it handed on.
#[derive(Drop)]
struct Keeping {
    kept: u64,
    given: u64,
}

impl Write for Keeping {
    fn write(&mut self, buf: &[u8]) -> io::Result<usize> {
        self.kept = self.kept.saturating_add(buf.len() as u64);
        Ok(buf.len())
    }

    fn flush(&mut self) -> io::Result<()> {
        if self.given > 0 {
            return Err(ErrorKind::BrokenPipe.into());
        }
        self.given = self.kept;
        Ok(())
    }
}

#[test]
fn a_flush_is_the_writers(rt: HostRuntime) {
    let mut writer = Keeping { kept: 0, given: 0 };
    let mut sink = StdSink::new(&mut writer);
    same(&rt, sink.write(b"abc"), Ok(3));
    same(&rt, sink.flush(), Ok(()));
    same(&rt, sink.error().is_none(), true);
    same(&rt, (sink.flush(), sink.faults()), (Err(Failed), 1));
    let kind = sink.error().map(|error| error.kind());
    same(&rt, kind, Some(ErrorKind::BrokenPipe));
    same(&rt, writer.given, 3);
}

// A read into a piece answers so, and leaves these bytes there.
fn reads<S: Source>(
    rt: &impl Abort,
    source: &mut S,
    piece: &mut [u8; 2],
    answer: Result<usize, Failed>,
    bytes: [u8; 2],
) {
    same(rt, source.read(piece), answer);
    same(rt, *piece, bytes);
}

#[test]
fn reads_in_pieces(rt: HostRuntime) {
    let bytes = b"abc".to_vec(rt.alloc()).expect(&rt, "no memory");
    let mut source = MemSource::new(bytes, only(&rt, rt.alloc(), 2));
    let mut piece = [0; 2];
    reads(&rt, &mut source, &mut piece, Ok(2), *b"ab");
    same(&rt, source.faults(), 0);
    reads(&rt, &mut source, &mut piece, Err(Failed), *b"ab");
    same(&rt, source.faults(), 1);
    reads(&rt, &mut source, &mut piece, Ok(1), *b"cb");
    same(&rt, source.faults(), 1);
    reads(&rt, &mut source, &mut piece, Ok(0), *b"cb");
    same(&rt, source.faults(), 1);
}

#[test]
fn takes_what_fits(rt: HostRuntime) {
    let failing = only(&rt, rt.alloc(), 3);
    let mut sink = made(&rt, MemSink::new(rt.alloc(), 3, failing));
    same(&rt, sink.write(b"ab"), Ok(2));
    same(&rt, sink.write(b"cd"), Err(Failed));
    same(&rt, sink.write(b"c"), Err(Failed));
    same(&rt, sink.write(b"c"), Ok(1));
    same(&rt, sink.write(b""), Ok(0));
    same(&rt, sink.bytes(), b"abc".as_slice());
    same(&rt, sink.faults(), 2);
}

#[test]
fn hands_on_what_it_took(rt: HostRuntime) {
    let failing = only(&rt, rt.alloc(), 2);
    let sink = made(&rt, MemSink::new(rt.alloc(), 3, failing));
    let mut sink = sink.with_failing_flushes(only(&rt, rt.alloc(), 2));
    same(&rt, sink.write(b"ab"), Ok(2));
    same(&rt, sink.flush(), Ok(()));
    same(&rt, sink.flush(), Err(Failed));
    same(&rt, sink.flush(), Ok(()));
    same(&rt, sink.write(b"c"), Err(Failed));
    same(&rt, sink.bytes(), b"ab".as_slice());
    same(&rt, sink.faults(), 2);
}

#[test]
fn sure_streams_go_on(rt: HostRuntime) {
    let bytes = b"a".to_vec(rt.alloc()).expect(&rt, "no memory");
    let mut source = SureSource::new(bytes);
    reads(&rt, &mut source, &mut [0; 2], Ok(1), *b"a\0");
    same(&rt, SureSink::new().write(b"ab"), Ok(2));
    same(&rt, SureSink::new().flush(), Ok(()));
}

// A reader's bytes in pieces, and then its end.
fn reads_on<S: Source>(rt: &impl Abort, source: &mut S) {
    let mut piece = [0; 2];
    same(rt, source.read(&mut piece), Ok(2));
    same(rt, source.read(&mut piece), Ok(1));
    same(rt, piece, *b"cb");
    same(rt, (source.read(&mut piece), source.faults()), (Ok(0), 0));
}

// A writer takes what it has room for, and nothing else.
fn writes_on<S: Sink>(rt: &impl Abort, sink: &mut S) {
    same(rt, sink.write(b"ab"), Ok(2));
    same(rt, sink.write(b"cd"), Ok(1));
    same(rt, sink.write(b"d"), Err(Failed));
    same(rt, (sink.write(b""), sink.faults()), (Ok(0), 1));
}

#[test]
fn readers_and_writers(rt: HostRuntime) {
    let bytes: &[u8] = b"abc";
    reads_on(&rt, &mut StdSource::new(bytes));
    let mut source = StdSource::new(Interrupted);
    same(&rt, source.read(&mut [0; 2]), Err(Failed));
    same(&rt, source.faults(), 1);
    let mut room = [0; 3];
    writes_on(&rt, &mut StdSink::new(&mut room[..]));
    same(&rt, room, *b"abc");
}
