//! Each implementation once, through its trait: tables of calls and their answers, and the faults in mid-stream.
use aerie_edge::{
    Gate, HoldUntil, MemorySink, MemorySource, Open, Point, ReadFailed, Sink, Source, StdSink,
    StdSource, SureSink, SureSource, WriteFailed,
};
use std::io;
use std::process::Abort;
use std::test::Fail;

const ROOM: usize = 8;

/// Reads into the front of a room of dashes, of this size, and compares the answer and the whole room.
fn check_read<S: Source>(
    rt: &impl Abort,
    source: &mut S,
    size: usize,
    want: Result<usize, ReadFailed>,
    text: &[u8],
) {
    assert!(rt; size <= ROOM);
    let mut room = [b'-'; ROOM];
    let got = source.read(&mut room[..size]);
    assert_eq!(rt; got, want);
    assert_eq!(rt; room.as_slice(), text);
}

/// Writes the piece and compares the answer.
fn check_write<K: Sink>(
    rt: &impl Abort,
    sink: &mut K,
    piece: &[u8],
    want: Result<usize, WriteFailed>,
) {
    let got = sink.write(piece);
    assert_eq!(rt; got, want);
}

/// One simulation of the client, from its start to its end.
fn simulate<G: Gate>(gate: &G, client: u32) {
    gate.at(client, 1, Point::Starts);
    gate.at(client, 1, Point::Ends);
}

#[test]
fn a_source_in_memory_gives_short_pieces_and_fails_the_listed_call(
    rt: HostRuntime,
) -> Result<(), Fail> {
    let bytes = Vec::from_slice(rt.alloc(), b"abcdefg")?;
    let mut source = MemorySource::new(bytes, 3, Vec::from_slice(rt.alloc(), &[2u64])?);
    let calls: [(usize, Result<usize, ReadFailed>, &[u8; ROOM]); 6] = [
        (2, Ok(2), b"ab------"),
        (5, Err(ReadFailed), b"--------"),
        (5, Ok(3), b"cde-----"),
        (0, Ok(0), b"--------"),
        (8, Ok(2), b"fg------"),
        (8, Ok(0), b"--------"),
    ];
    for (size, want, text) in calls {
        check_read(&rt, &mut source, size, want, text);
    }
    Ok(())
}

#[test]
fn a_sure_source_fills_the_room_to_its_end(rt: HostRuntime) -> Result<(), Fail> {
    let mut source = SureSource::new(Vec::from_slice(rt.alloc(), b"abcdefghij")?);
    let calls: [(usize, usize, &[u8; ROOM]); 3] = [
        (8, 8, b"abcdefgh"),
        (8, 2, b"ij------"),
        (8, 0, b"--------"),
    ];
    for (size, want, text) in calls {
        check_read(&rt, &mut source, size, Ok(want), text);
    }
    Ok(())
}

#[test]
fn a_sink_in_memory_takes_short_pieces_and_fails_the_listed_call(
    rt: HostRuntime,
) -> Result<(), Fail> {
    let mut sink = MemorySink::new(rt.alloc(), 4, Vec::from_slice(rt.alloc(), &[2u64])?);
    let calls: [(&[u8; 6], Result<usize, WriteFailed>); 3] = [
        (b"abcdef", Ok(4)),
        (b"efghij", Err(WriteFailed)),
        (b"efghij", Ok(4)),
    ];
    for (piece, want) in calls {
        check_write(&rt, &mut sink, piece, want);
    }
    check_write(&rt, &mut sink, b"", Ok(0));
    assert_eq!(rt; sink.bytes(), b"abcdefgh".as_slice());

    let mut stuck = MemorySink::new(rt.alloc(), 0, Vec::new(rt.alloc()));
    check_write(&rt, &mut stuck, b"a", Err(WriteFailed));
    check_write(&rt, &mut stuck, b"", Ok(0));
    Ok(())
}

#[test]
fn a_sure_sink_takes_pieces_past_its_room(rt: HostRuntime) -> Result<(), Fail> {
    let mut sink = SureSink::new(rt.alloc(), 5)?;
    for (piece, want) in [(b"abc", 3), (b"def", 3), (b"ghi", 3)] {
        check_write(&rt, &mut sink, piece, Ok(want));
    }
    Ok(())
}

#[test]
fn a_gate_tells_whether_the_other_ended_or_the_iterations_ran_out(rt: HostRuntime) {
    simulate(&Open, 1);

    let after = HoldUntil::new(1, 2, 3);
    simulate(&after, 2);
    assert!(rt; !after.ended());
    simulate(&after, 1);
    assert!(rt; after.ended());

    let before = HoldUntil::new(1, 2, 3);
    simulate(&before, 1);
    simulate(&before, 2);
    assert!(rt; !before.ended());
}

/// A reader whose every read fails.
#[derive(Drop)]
struct Broken;

impl io::Read for Broken {
    fn read(&mut self, _buf: &mut [u8]) -> io::Result<usize> {
        Err(io::Error::from(io::ErrorKind::Other))
    }
}

/// A writer that takes nothing.
#[derive(Drop)]
struct Full;

impl io::Write for Full {
    fn write(&mut self, _buf: &[u8]) -> io::Result<usize> {
        Ok(0)
    }

    fn flush(&mut self) -> io::Result<()> {
        Ok(())
    }
}

/// A writer that takes everything into a buffer which it cannot empty.
#[derive(Drop)]
struct Clogged;

impl io::Write for Clogged {
    fn write(&mut self, buf: &[u8]) -> io::Result<usize> {
        Ok(buf.len())
    }

    fn flush(&mut self) -> io::Result<()> {
        Err(io::Error::from(io::ErrorKind::Other))
    }
}

/// A stream whose first calls a signal interrupts. Then it is at its end for readers, and takes all that is written.
#[derive(Drop)]
struct Signalled {
    interrupts: u32,
}

impl Signalled {
    fn call(&mut self) -> io::Result<()> {
        if self.interrupts == 0 {
            return Ok(());
        }
        self.interrupts -= 1;
        Err(io::Error::from(io::ErrorKind::Interrupted))
    }
}

impl io::Read for Signalled {
    fn read(&mut self, _buf: &mut [u8]) -> io::Result<usize> {
        self.call()?;
        Ok(0)
    }
}

impl io::Write for Signalled {
    fn write(&mut self, buf: &[u8]) -> io::Result<usize> {
        self.call()?;
        Ok(buf.len())
    }

    fn flush(&mut self) -> io::Result<()> {
        self.call()
    }
}

#[test]
fn a_call_that_signals_interrupt_is_made_again_a_thousand_times(rt: HostRuntime) {
    for (interrupts, read, write) in [
        (1, Ok(0), Ok(3)),
        (1_000, Ok(0), Ok(3)),
        (1_001, Err(ReadFailed), Err(WriteFailed)),
    ] {
        let mut source = StdSource::new(Signalled { interrupts });
        check_read(&rt, &mut source, 8, read, b"--------");
        check_write(
            &rt,
            &mut StdSink::new(Signalled { interrupts }),
            b"abc",
            write,
        );
    }
}

#[test]
fn readers_and_writers_of_std_serve_and_fail(rt: HostRuntime) -> Result<(), Fail> {
    let mut source = StdSource::new(b"abc".as_slice());
    check_read(&rt, &mut source, 8, Ok(3), b"abc-----");
    check_read(&rt, &mut source, 8, Ok(0), b"--------");
    check_read(
        &rt,
        &mut StdSource::new(Broken),
        8,
        Err(ReadFailed),
        b"--------",
    );

    let mut bytes = Vec::new(rt.alloc());
    check_write(&rt, &mut StdSink::new(&mut bytes), b"abc", Ok(3));
    assert_eq!(rt; bytes.as_slice(), b"abc".as_slice());
    check_write(&rt, &mut StdSink::new(Full), b"abc", Err(WriteFailed));
    check_write(&rt, &mut StdSink::new(Full), b"", Ok(0));
    check_write(&rt, &mut StdSink::new(Clogged), b"abc", Err(WriteFailed));
    Ok(())
}
