use script_io::{Fused, InputError, put_all, read_input};
use std::alloc::{AllocError, Global};
use std::io;
use std::io::{Error, ErrorKind, Read, Write};
use std::test::*;
use test_cases::{cut, expect_lines};

// A reader that gives a byte a call, up to a number of bytes, and then answers an error of this kind, once.
#[derive(Drop)]
struct StutteringReader {
    given: usize,
    sound: usize,
    kind: ErrorKind,
}

impl Read for StutteringReader {
    fn read(&mut self, buf: &mut [u8]) -> io::Result<usize> {
        if buf.is_empty() {
            return Ok(0);
        }
        let given = self.given;
        self.given = given.wrapping_add(1);
        if given == self.sound {
            return Err(Error::from(self.kind));
        }
        if given > self.sound {
            return Ok(0);
        }
        buf[0] = b'x';
        Ok(1)
    }
}

// What a writer does once it has as many bytes as it takes.
#[derive(Clone, Copy)]
enum AtRoom {
    Fail(ErrorKind),
    TakeNone,
}

// A writer that takes a few bytes, at most so many a call. One that takes none has nothing to send out, and fails at that, too.
#[derive(Drop)]
struct ShortWriter {
    taken: Vec<u8>,
    room: usize,
    a_call: usize,
    calls: usize,
    flushes: usize,
    at_room: AtRoom,
}

impl ShortWriter {
    /// One that took nothing yet.
    fn new(alloc: Global, room: usize, a_call: usize, at_room: AtRoom) -> ShortWriter {
        ShortWriter {
            taken: Vec::new(alloc),
            room,
            a_call,
            calls: 0,
            flushes: 0,
            at_room,
        }
    }
}

impl Write for ShortWriter {
    fn write(&mut self, buf: &[u8]) -> io::Result<usize> {
        self.calls = self.calls.wrapping_add(1);
        let count = buf
            .len()
            .min(self.a_call)
            .min(self.room.saturating_sub(self.taken.len()));
        if count == 0 && !buf.is_empty() {
            return match self.at_room {
                AtRoom::Fail(kind) => Err(Error::from(kind)),
                AtRoom::TakeNone => Ok(0),
            };
        }
        self.taken.extend_from_slice(&buf[..count])?;
        Ok(count)
    }

    fn flush(&mut self) -> io::Result<()> {
        self.flushes = self.flushes.wrapping_add(1);
        match self.at_room {
            AtRoom::Fail(kind) if self.room == 0 => Err(Error::from(kind)),
            _ => Ok(()),
        }
    }
}

/// How many bytes are taken of so many, up to a limit, where they are over it, or else whether they came as they are.
fn taken_of(alloc: Global, size: u32, most: u32) -> Result<String, AllocError> {
    let script = [b'x'; 20001];
    let script = script.get(..size as usize).unwrap_or(b"too long");
    let mut left = script;
    let mut reader = Fused::new(&mut left);
    let read = read_input(alloc, &mut reader, most as usize);
    let is_sound = reader.fault().is_none();
    let taken = script.len().saturating_sub(left.len());
    match read {
        Ok(text) => format!(in alloc; "{}", is_sound && text.as_slice() == script),
        Err(InputError::TooLong) => format!(in alloc; "{taken}"),
        Err(error) => format!(in alloc; "{error:?}"),
    }
}

/// The same of a size and a limit.
fn taken(alloc: Global, case: &str) -> Result<String, AllocError> {
    let (size, most) = cut(case, " ");
    taken_of(alloc, size.parse().unwrap_or(0), most.parse().unwrap_or(0))
}

/// Whether a reader without an end is refused.
fn is_refused(alloc: Global, most: u32) -> bool {
    let mut reader = Fused::new(io::repeat(b'x'));
    let result = read_input(alloc, &mut reader, most as usize);
    matches!(&result, Err(InputError::TooLong)) && reader.fault().is_none()
}

/// Whether what a reader has left can't be read, for a fault of this kind.
fn fails(alloc: Global, reader: &mut Fused<&mut StutteringReader>, kind: ErrorKind) -> bool {
    let result = read_input(alloc, reader, 10);
    let is_kind = match reader.fault() {
        Some(error) => error.kind() == kind,
        None => false,
    };
    is_kind && matches!(&result, Err(InputError::ReadFault))
}

/// Whether reading ends at the fault of a reader that gives so many bytes, and again where it is tried once more. Behind the fault no more
/// may be asked.
fn stops(alloc: Global, sound: usize, kind: ErrorKind) -> bool {
    let mut stuttering = StutteringReader {
        given: 0,
        sound,
        kind,
    };
    let mut reader = Fused::new(&mut stuttering);
    let stops = fails(alloc, &mut reader, kind) && fails(alloc, &mut reader, kind);
    stops && stuttering.given == sound.wrapping_add(1)
}

/// The same of each kind of fault.
fn stops_at_each(alloc: Global, sound: usize) -> bool {
    stops(alloc, sound, ErrorKind::Other)
        && stops(alloc, sound, ErrorKind::Interrupted)
        && stops(alloc, sound, ErrorKind::UnexpectedEof)
}

/// Whether a text is written to a writer with so much room, or else its front, and a fault is told then, and stays.
fn fills(rt: HostRuntime, text: &[u8], room: usize, a_call: usize, at_room: AtRoom) -> bool {
    let mut short = ShortWriter::new(rt.alloc(), room, a_call, at_room);
    let mut writer = Fused::new(&mut short);
    let is_whole = put_all(&mut writer, text).is_ok();
    let is_told = is_whole == writer.fault().is_none() && is_whole == writer.flush().is_ok();
    let stays = is_whole || put_all(&mut writer, b"more").is_err();
    is_whole == (room >= text.len())
        && is_told
        && stays
        && short.taken.len() == room.min(text.len())
        && text.starts_with(short.taken.as_slice())
}

/// Whether the same holds of a text whatever the room.
fn fills_any(rt: HostRuntime, a_call: usize, at_room: AtRoom) -> bool {
    for room in 0..16usize {
        if !fills(rt, b"new a\ncount 0\n", room, a_call, at_room) {
            return false;
        }
    }
    true
}

/// The same whatever the writer does once it has as many bytes as it takes.
fn fills_at_each_end(rt: HostRuntime, a_call: usize) -> bool {
    fills_any(rt, a_call, AtRoom::TakeNone)
        && fills_any(rt, a_call, AtRoom::Fail(ErrorKind::StorageFull))
        && fills_any(rt, a_call, AtRoom::Fail(ErrorKind::Interrupted))
}

/// Whether a writer of so much room is flushed when it is asked to, and then alone. Then how often it is, if that is asked twice.
fn flushes(rt: HostRuntime, room: usize) -> (bool, usize) {
    let at_room = AtRoom::Fail(ErrorKind::StorageFull);
    let mut short = ShortWriter::new(rt.alloc(), room, 3, at_room);
    let mut writer = Fused::new(&mut short);
    let text = b"count 0\n".get(..room).unwrap_or(b"count 0\n");
    let is_written = put_all(&mut writer, text).is_ok();
    let first = writer.flush().is_ok();
    let again = writer.flush().is_ok();
    let is_told = first == again && first == writer.fault().is_none();
    (is_written && is_told, short.flushes)
}

/// Whether a text is written to a writer that takes nothing, and again, whether there is no fault then, and whether the writer is flushed.
/// Then how often it was asked to write.
fn asks(rt: HostRuntime, text: &[u8]) -> ([bool; 4], usize) {
    let mut short = ShortWriter::new(rt.alloc(), 0, 1, AtRoom::TakeNone);
    let mut writer = Fused::new(&mut short);
    let first = put_all(&mut writer, text).is_ok();
    let again = put_all(&mut writer, text).is_ok();
    let is_sound = writer.fault().is_none();
    let flushed = writer.flush().is_ok();
    ([first, again, is_sound, flushed], short.calls)
}

/// What is told of a writer: `WHAT: NUMBER`, or `asks: TEXT`.
fn told_of_writer(rt: HostRuntime, what: &str, case: &str) -> Result<String, AllocError> {
    let number = case.parse().unwrap_or(0);
    match what {
        "fills" => format!(in rt.alloc(); "{}", fills_at_each_end(rt, number)),
        "flushes" => format!(in rt.alloc(); "{:?}", flushes(rt, number)),
        _ => format!(in rt.alloc(); "{:?}", asks(rt, case.as_bytes())),
    }
}

/// What is told of a case: `WHAT: CASE`.
fn told(rt: HostRuntime, line: &str) -> Result<String, Fail> {
    let alloc = rt.alloc();
    let (what, case) = cut(line, ": ");
    let told = match what {
        "reads" => taken(alloc, case),
        "endless" => format!(in alloc; "{}", is_refused(alloc, case.parse().unwrap_or(7))),
        "stops" => format!(in alloc; "{}", stops_at_each(alloc, case.parse().unwrap_or(7))),
        _ => told_of_writer(rt, what, case),
    };
    Ok(told?)
}

/// The bytes that a reader has, the limit, and how many are taken where they are over it, or that all come as they are. Then the limits of
/// a reader without an end, which is refused, and how many bytes come before a fault of a reader, which is told, and asked no more.
const READ: &str = "\
reads: 0 0 => true
reads: 1 0 => 1
reads: 5 5 => true
reads: 6 5 => 6
reads: 8191 8192 => true
reads: 8192 8192 => true
reads: 8193 8192 => 8193
reads: 20000 20000 => true
reads: 20001 20000 => 20001
endless: 0 => true
endless: 1 => true
endless: 8191 => true
endless: 8192 => true
endless: 100000 => true
stops: 0 => true
stops: 1 => true
stops: 5 => true";

/// How many bytes a writer takes at a call: it takes all or the front. A flush is asked for twice, of a writer that has room and of one
/// that has none; one that failed is not tried again. A writer that takes nothing is not asked for nothing, and once it failed no more.
const WRITTEN: &str = "\
fills: 1 => true
fills: 3 => true
fills: 100 => true
flushes: 8 => (true, 2)
flushes: 0 => (true, 1)
asks:  => ([true, true, true, true], 0)
asks: x => ([false, false, false, false], 1)";

#[test]
fn streams_give_and_take(rt: HostRuntime) -> Result<(), Fail> {
    expect_lines(rt, READ, told)?;
    expect_lines(rt, WRITTEN, told)
}
