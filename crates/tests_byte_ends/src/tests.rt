//! What no clause says: that calls succeed, and what std's own readers and writers get.

use byte_ends::{
    Failed, Held, InputFault, OfRead, OfWrite, OutOfMemory, Script, Sink, Source, read_whole,
};
use std::alloc::{AllocError, Global};
use std::io::{self, Error, ErrorKind, Read, Write};
use std::test::Fail;
use test_support::{Broken, Stuck};

const TEXT: &[u8] = b"410001+00000010 42....+000000S1\r\n";

/// Reads a source to its end, by reads into so many bytes.
fn read_to_end<S: Source>(
    alloc: Global,
    source: &mut S,
    room: usize,
) -> Result<(Vec<u8>, bool), AllocError> {
    let mut bytes = Vec::new(alloc);
    let mut buffer = [0u8; 10];
    let room = room.min(buffer.len());
    for _ in 0..100 {
        match source.read(&mut buffer[..room]) {
            Ok(0) => return Ok((bytes, false)),
            Ok(n) => bytes.extend_from_slice(&buffer[..n])?,
            Err(Failed) => return Ok((bytes, true)),
        }
    }
    Ok((bytes, false))
}

/// A reader or writer that fails at one call, or gives or takes no byte there, then goes on, and
/// counts its calls.
#[derive(Drop)]
struct StopsAt {
    call: u32,
    fails: bool,
    calls: u32,
}

impl StopsAt {
    fn new(call: u32, fails: bool) -> StopsAt {
        StopsAt {
            call,
            fails,
            calls: 0,
        }
    }

    fn answer(&mut self, bytes: usize) -> io::Result<usize> {
        self.calls = self.calls.saturating_add(1);
        if self.calls != self.call {
            return Ok(bytes.min(1));
        }
        if self.fails {
            return Err(Error::from(ErrorKind::Interrupted));
        }
        Ok(0)
    }
}

impl Read for StopsAt {
    fn read(&mut self, buf: &mut [u8]) -> io::Result<usize> {
        let given = self.answer(buf.len())?.min(buf.len());
        buf[..given].fill(b'A');
        Ok(given)
    }
}

impl Write for StopsAt {
    fn write(&mut self, buf: &[u8]) -> io::Result<usize> {
        Ok(self.answer(buf.len())?.min(buf.len()))
    }

    fn flush(&mut self) -> io::Result<()> {
        self.answer(0).map(|_| ())
    }
}

#[test]
fn one_read_is_one_call_of_the_reader_and_has_its_answer(rt: HostRuntime) {
    for failing in 1..5u32 {
        let mut reader = StopsAt::new(failing, true);
        let mut buffer = [0u8; 4];
        for call in 1..8u32 {
            let want = if call == failing { Err(Failed) } else { Ok(1) };
            let answer = OfRead::new(&mut reader).read(&mut buffer);
            assert_eq!(rt; answer, want, "call {call}");
            assert_eq!(rt; reader.calls, call);
        }
    }
}

#[test]
fn one_write_is_one_call_of_the_writer_and_has_its_answer(rt: HostRuntime) {
    for failing in 1..5u32 {
        let mut writer = StopsAt::new(failing, true);
        for call in 1..8u32 {
            let mut sink = OfWrite::new(&mut writer);
            if call == 3 {
                let want = if call == failing { Err(Failed) } else { Ok(()) };
                assert_eq!(rt; sink.flush(), want, "call {call}");
            } else {
                let want = if call == failing { Err(Failed) } else { Ok(1) };
                assert_eq!(rt; sink.write(TEXT), want, "call {call}");
            }
            assert_eq!(rt; writer.calls, call);
        }
    }
}

/// The longest room and the longest piece that are tried.
const LONGEST: usize = 70_000;

/// What three reads into this room answer of a reader that stops at the second, and how many calls
/// of the reader they were.
fn three_reads(room: &mut [u8], fails: bool) -> ([Result<usize, Failed>; 3], u32) {
    let mut source = OfRead::new(StopsAt::new(2, fails));
    let answers = [source.read(room), source.read(room), source.read(room)];
    (answers, source.into_inner().calls)
}

/// What three writes of this piece answer of a writer that stops at the second, and how many calls
/// of the writer they were.
fn three_writes(piece: &[u8], fails: bool) -> ([Result<usize, Failed>; 3], u32) {
    let mut sink = OfWrite::new(StopsAt::new(2, fails));
    let answers = [sink.write(piece), sink.write(piece), sink.write(piece)];
    (answers, sink.into_inner().calls)
}

#[test]
fn a_read_into_any_room_is_one_call_until_the_reader_is_over(rt: HostRuntime) -> Result<(), Fail> {
    let mut bytes = vec![in rt.alloc(); 0u8; LONGEST]?;
    for length in 1..=LONGEST {
        let room = length.min(bytes.len());
        let (answers, calls) = three_reads(&mut bytes[..room], true);
        assert_eq!(rt; answers, [Ok(1), Err(Failed), Err(Failed)]);
        assert_eq!(rt; calls, 2);
        let (answers, calls) = three_reads(&mut bytes[..room], false);
        assert_eq!(rt; answers, [Ok(1), Ok(0), Ok(0)]);
        assert_eq!(rt; calls, 2);
    }
    Ok(())
}

#[test]
fn a_write_of_any_length_is_one_call(rt: HostRuntime) -> Result<(), Fail> {
    let bytes = vec![in rt.alloc(); 0u8; LONGEST]?;
    for length in 1..=LONGEST {
        let piece = &bytes[..length.min(bytes.len())];
        for fails in [false, true] {
            let (answers, calls) = three_writes(piece, fails);
            assert_eq!(rt; answers, [Ok(1), Err(Failed), Ok(1)]);
            assert_eq!(rt; calls, 3);
        }
    }
    Ok(())
}

/// A reader or writer that moves whole pieces, fails or moves no byte once after so many bytes,
/// then goes on, and counts its calls and bytes.
#[derive(Drop)]
struct StopsAfter {
    bytes: usize,
    fails: bool,
    has_stopped: bool,
    calls: usize,
    moved: usize,
}

impl StopsAfter {
    fn new(bytes: usize, fails: bool) -> StopsAfter {
        StopsAfter {
            bytes,
            fails,
            has_stopped: false,
            calls: 0,
            moved: 0,
        }
    }

    fn answer(&mut self, piece: usize) -> io::Result<usize> {
        self.calls = self.calls.saturating_add(1);
        let before_stop = self.bytes.saturating_sub(self.moved);
        if before_stop == 0 && !self.has_stopped {
            self.has_stopped = true;
            if self.fails {
                return Err(Error::from(ErrorKind::WouldBlock));
            }
            return Ok(0);
        }
        let moved = if self.has_stopped {
            piece
        } else {
            piece.min(before_stop)
        };
        self.moved = self.moved.saturating_add(moved);
        Ok(moved)
    }
}

impl Read for StopsAfter {
    fn read(&mut self, buf: &mut [u8]) -> io::Result<usize> {
        Ok(self.answer(buf.len())?.min(buf.len()))
    }
}

impl Write for StopsAfter {
    fn write(&mut self, buf: &[u8]) -> io::Result<usize> {
        Ok(self.answer(buf.len())?.min(buf.len()))
    }

    fn flush(&mut self) -> io::Result<()> {
        self.answer(0).map(|_| ())
    }
}

/// Bytes of a room, or of a piece.
const PIECE: usize = 4_096;

/// More bytes than the largest field file has.
const LARGE: usize = 17_000_000;

/// Pieces of `LARGE` bytes, some cut by a stop, and calls that find a stop or come after it.
const MOST_CALLS: usize = 4_200;

/// Each power of two up to 16 MiB, and `LARGE`: after so many bytes a stop comes.
fn stops() -> [usize; 26] {
    let mut stops = [LARGE; 26];
    let mut bytes = 1usize;
    for stop in stops.iter_mut().take(25) {
        *stop = bytes;
        bytes = bytes.saturating_mul(2);
    }
    stops
}

#[test]
fn each_of_many_reads_is_one_call_until_the_reader_is_over(rt: HostRuntime) {
    let mut room = [0u8; PIECE];
    for bytes in stops() {
        for fails in [false, true] {
            let over = if fails { Err(Failed) } else { Ok(0) };
            let mut source = OfRead::new(StopsAfter::new(bytes, fails));
            let (mut calls, mut given) = (0usize, 0usize);
            for _ in 0..MOST_CALLS {
                calls = calls.saturating_add(1);
                match source.read(&mut room) {
                    Ok(n) if n > 0 => given = given.saturating_add(n),
                    answer => {
                        assert_eq!(rt; answer, over, "after {bytes} bytes");
                        break;
                    }
                }
            }
            for _ in 0..3u32 {
                assert_eq!(rt; source.read(&mut room), over, "after {bytes} bytes");
            }
            let reader = source.into_inner();
            assert_eq!(rt; given, bytes);
            assert_eq!(rt; reader.moved, bytes);
            assert_eq!(rt; reader.calls, calls, "after {bytes} bytes");
        }
    }
}

#[test]
fn each_of_many_writes_is_one_call(rt: HostRuntime) {
    let piece = [0u8; PIECE];
    for bytes in stops() {
        for fails in [false, true] {
            let mut sink = OfWrite::new(StopsAfter::new(bytes, fails));
            let (mut failed, mut taken) = (0u32, 0usize);
            for _ in 0..MOST_CALLS {
                match sink.write(&piece) {
                    Ok(n) => taken = taken.saturating_add(n),
                    Err(Failed) => {
                        assert_eq!(rt; taken, bytes);
                        failed = failed.saturating_add(1);
                    }
                }
            }
            let writer = sink.into_inner();
            assert_eq!(rt; failed, 1, "after {bytes} bytes");
            assert_eq!(rt; writer.moved, taken, "after {bytes} bytes");
            assert_eq!(rt; writer.calls, MOST_CALLS, "after {bytes} bytes");
        }
    }
}

#[test]
fn each_flush_is_one_call_however_much_was_written(rt: HostRuntime) {
    let piece = [0u8; PIECE];
    for bytes in stops() {
        for fails in [false, true] {
            let mut sink = OfWrite::new(StopsAfter::new(bytes, fails));
            let (mut calls, mut taken) = (0usize, 0usize);
            for _ in 0..MOST_CALLS {
                if taken >= bytes {
                    break;
                }
                calls = calls.saturating_add(1);
                taken = taken.saturating_add(sink.write(&piece).unwrap_or(0));
            }
            let stopped = if fails { Err(Failed) } else { Ok(()) };
            assert_eq!(rt; taken, bytes);
            assert_eq!(rt; sink.flush(), stopped, "after {bytes} bytes");
            assert_eq!(rt; sink.flush(), Ok(()), "after {bytes} bytes");
            assert_eq!(rt;
                sink.into_inner().calls,
                calls.saturating_add(2),
                "after {bytes} bytes"
            );
        }
    }
}

#[test]
fn a_script_gives_its_bytes_and_then_ends_or_fails(rt: HostRuntime) -> Result<(), Fail> {
    for step in [1, 2, 3, 7, 10, 100] {
        for fails in [false, true] {
            let mut script = Script::new(TEXT, step, fails);
            let (bytes, failed) = read_to_end(rt.alloc(), &mut script, 10)?;
            assert_eq!(rt; &bytes[..], TEXT, "{step} bytes a read");
            assert_eq!(rt; failed, fails, "{step} bytes a read");
        }
    }
    Ok(())
}

/// More bytes than two pieces of an input.
const MANY: [u8; 9_000] = [7; 9_000];

#[test]
fn an_input_is_read_whole_up_to_its_limit(rt: HostRuntime) -> Result<(), Fail> {
    // How many bytes there are, whether a read fails after them, the limit, and the answer.
    let cases = [
        (0, false, 0, None),
        (0, true, 0, Some(InputFault::Read)),
        (1, false, 0, Some(InputFault::TooLong)),
        (1, false, 1, None),
        (4_096, false, 4_096, None),
        (4_097, false, 4_096, Some(InputFault::TooLong)),
        (4_097, true, 4_097, Some(InputFault::Read)),
        (9_000, true, 8_999, Some(InputFault::TooLong)),
        (9_000, false, usize::MAX, None),
    ];
    for (len, fails, most, want) in cases {
        for step in [1, 4_096, usize::MAX] {
            let mut script = Script::new(MANY.get(..len).ok_or("too few")?, step, fails);
            match read_whole(rt.alloc(), &mut script, most) {
                Ok(bytes) => {
                    assert_eq!(rt; want, None, "{len} bytes, {step} at a time");
                    assert_eq!(rt; bytes.len(), len, "{step} at a time");
                }
                Err(fault) => assert_eq!(rt; want, Some(fault), "{len} bytes, {step} at a time"),
            }
        }
    }
    Ok(())
}

#[test]
fn a_reader_of_std_is_read_as_it_stands(rt: HostRuntime) -> Result<(), Fail> {
    for room in 1..=10usize {
        let mut source = OfRead::new(TEXT);
        let (read, failed) = read_to_end(rt.alloc(), &mut source, room)?;
        assert_eq!(rt; &read[..], TEXT, "room {room}");
        assert!(rt; !failed, "room {room}");
        assert!(rt; source.into_inner().is_empty());
    }
    let mut buffer = [0u8; 4];
    assert_eq!(rt; OfRead::new(Broken).read(&mut buffer), Err(Failed));
    Ok(())
}

#[test]
fn a_writer_of_std_gets_the_bytes(rt: HostRuntime) -> Result<(), Fail> {
    for step in 1..=10usize {
        let mut sink = OfWrite::new(Vec::new(rt.alloc()));
        for piece in TEXT.chunks(step) {
            assert_eq!(rt; sink.write_all(piece), Ok(()), "{step} bytes a write");
        }
        assert_eq!(rt; sink.flush(), Ok(()));
        assert_eq!(rt; &sink.into_inner()[..], TEXT);
    }
    Ok(())
}

#[test]
fn a_writer_that_fails_or_takes_no_byte_is_failed(rt: HostRuntime) {
    assert_eq!(rt; OfWrite::new(Broken).write(TEXT), Err(Failed));
    assert_eq!(rt; OfWrite::new(Broken).flush(), Err(Failed));
    assert_eq!(rt; OfWrite::new(Stuck).write(TEXT), Err(Failed));
    assert_eq!(rt; OfWrite::new(Stuck).write(b""), Ok(0));
    assert_eq!(rt; OfWrite::new(Stuck).write_all(TEXT), Err(Failed));
}

#[test]
fn a_held_sink_takes_what_it_has_room_for(rt: HostRuntime) -> Result<(), Fail> {
    for room in 0..TEXT.len() + 2 {
        for step in [1, 2, 3, 7, 100] {
            let mut sink = Held::new(rt.alloc(), room, step, false).map_err(|_| "no memory")?;
            let wrote = sink.write_all(TEXT);
            let taken = room.min(TEXT.len());
            assert_eq!(rt;
                sink.bytes(),
                &TEXT[..taken],
                "room {room}, {step} bytes a write"
            );
            assert_eq!(rt; wrote.is_ok(), taken == TEXT.len(), "room {room}");
            assert_eq!(rt; sink.flush(), Ok(()));
        }
    }
    let mut sink = Held::new(rt.alloc(), 4, 4, true).map_err(|_| "no memory")?;
    assert_eq!(rt; sink.flush(), Err(Failed));
    Ok(())
}

#[test]
fn faults_are_told_in_words(rt: HostRuntime) -> Result<(), Fail> {
    let failed = "a read or a write failed";
    let memory = "out of memory";
    assert_eq!(rt; format!(in rt.alloc(); "{Failed}")?.as_str(), failed);
    assert_eq!(rt; format!(in rt.alloc(); "{OutOfMemory}")?.as_str(), memory);
    Ok(())
}
