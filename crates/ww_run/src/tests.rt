//! The program on readers and writers that are slow, endless, or fail.

use crate::run::{Status, run};
use std::alloc::Global;
use std::io;
use std::io::{Read, Write};
use std::test::Fail;

/// One empty script on one node of 5.
fn input() -> &'static [u8] {
    r#"{"version":1,"kind":"wound-wait","history":false,
        "nodes":[{"value":5,"ports":[null,null,null,null]}],"scripts":[[]]}"#
        .as_bytes()
}

fn text() -> &'static [u8] {
    b"node 0 5 - - - -\n".as_slice()
}

fn broken() -> &'static [u8] {
    b"{\"version\":1,".as_slice()
}

fn broken_line() -> &'static [u8] {
    b"refused 10 not json\n".as_slice()
}

/// Gives one byte a call, and counts the calls. At one of them it fails, and after that it gives again.
#[derive(Drop)]
struct Slow<'a> {
    bytes: &'a [u8],
    calls: usize,
    failing: usize,
    fault: io::ErrorKind,
}

impl Read for Slow<'_> {
    fn read(&mut self, buf: &mut [u8]) -> io::Result<usize> {
        let call = self.calls;
        self.calls = call.saturating_add(1);
        if call == self.failing {
            return Err(io::Error::from(self.fault));
        }
        match self.bytes {
            [first, rest @ ..] if !buf.is_empty() => {
                buf[0] = *first;
                self.bytes = rest;
                Ok(1)
            }
            _ => Ok(0),
        }
    }
}

/// Gives spaces without end, and counts them.
#[derive(Drop)]
struct Spaces {
    given: u64,
}

impl Read for Spaces {
    fn read(&mut self, buf: &mut [u8]) -> io::Result<usize> {
        buf.fill(b' ');
        self.given = self.given.saturating_add(buf.len() as u64);
        Ok(buf.len())
    }
}

/// Takes so many bytes a call at most. Where its room is used up it fails once, by taking nothing if no other fault is
/// named, and after that it takes again.
#[derive(Drop)]
struct Narrow {
    held: Vec<u8>,
    each: usize,
    room: usize,
    fault: Option<io::ErrorKind>,
}

impl Narrow {
    fn new(alloc: Global, each: usize, room: usize, fault: Option<io::ErrorKind>) -> Narrow {
        Narrow {
            held: Vec::new(alloc),
            each,
            room,
            fault,
        }
    }
}

impl Write for Narrow {
    fn write(&mut self, buf: &[u8]) -> io::Result<usize> {
        if self.room == 0 {
            self.room = usize::MAX;
            return match self.fault {
                Some(kind) => Err(io::Error::from(kind)),
                None => Ok(0),
            };
        }
        let n = buf.len().min(self.each).min(self.room);
        let (front, _) = buf.split_at(n);
        self.held.extend_from_slice(front)?;
        self.room -= n;
        Ok(n)
    }

    fn flush(&mut self) -> io::Result<()> {
        Ok(())
    }
}

#[test]
fn reads_and_writes_a_byte_a_call(rt: HostRuntime) -> Result<(), Fail> {
    let mut reader = Slow {
        bytes: input(),
        calls: 0,
        failing: usize::MAX,
        fault: io::ErrorKind::Other,
    };
    let mut writer = Narrow::new(rt.alloc(), 1, 1000, None);
    let status = run(&rt, rt.alloc(), &mut reader, &mut writer);
    assert_eq!(rt; status, Status::Ended);
    assert_eq!(rt; writer.held.as_slice(), text());
    Ok(())
}

/// Also where the next read would succeed.
#[test]
fn ends_where_a_read_fails(rt: HostRuntime) -> Result<(), Fail> {
    for fault in [
        io::ErrorKind::Interrupted,
        io::ErrorKind::WouldBlock,
        io::ErrorKind::Other,
    ] {
        for failing in 0..=input().len() {
            let mut reader = Slow {
                bytes: input(),
                calls: 0,
                failing,
                fault,
            };
            let mut writer = Narrow::new(rt.alloc(), 1000, 1000, None);
            let status = run(&rt, rt.alloc(), &mut reader, &mut writer);
            assert_eq!(rt; status, Status::ReadFailed, "at call {failing}");
            assert_eq!(rt;
                reader.calls,
                failing.saturating_add(1),
                "at call {failing}"
            );
            assert!(rt; writer.held.is_empty(), "at call {failing}");
        }
    }
    Ok(())
}

/// Also where the next write would succeed.
#[test]
fn ends_where_a_write_fails(rt: HostRuntime) -> Result<(), Fail> {
    for (bytes, wanted) in [(input(), text()), (broken(), broken_line())] {
        for fault in [
            Some(io::ErrorKind::Interrupted),
            Some(io::ErrorKind::WouldBlock),
            Some(io::ErrorKind::StorageFull),
            None,
        ] {
            for each in 1..4 {
                for room in 0..wanted.len() {
                    let mut reader = bytes;
                    let mut writer = Narrow::new(rt.alloc(), each, room, fault);
                    let failed = run(&rt, rt.alloc(), &mut reader, &mut writer);
                    assert_eq!(rt; failed, Status::WriteFailed, "with room for {room}");
                    assert_eq!(rt;
                        writer.held.as_slice(),
                        &wanted[..room],
                        "with room for {room}"
                    );
                }
            }
        }
    }
    Ok(())
}

#[test]
fn writes_where_there_is_just_room(rt: HostRuntime) -> Result<(), Fail> {
    for (bytes, wanted, status) in [
        (input(), text(), Status::Ended),
        (broken(), broken_line(), Status::Refused),
    ] {
        for each in 1..4 {
            let mut reader = bytes;
            let mut writer = Narrow::new(rt.alloc(), each, wanted.len(), None);
            let ended = run(&rt, rt.alloc(), &mut reader, &mut writer);
            assert_eq!(rt; ended, status);
            assert_eq!(rt; writer.held.as_slice(), wanted);
        }
    }
    Ok(())
}

#[test]
fn reads_one_byte_more_than_an_input_may_have(rt: HostRuntime) -> Result<(), Fail> {
    let mut reader = Spaces { given: 0 };
    let mut writer: Vec<u8> = Vec::new(rt.alloc());
    let status = run(&rt, rt.alloc(), &mut reader, &mut writer);
    assert_eq!(rt; status, Status::Refused);
    assert_eq!(rt;
        writer.as_slice(),
        b"refused 17 input too long\n".as_slice()
    );
    assert_eq!(rt; reader.given, 1_048_577);
    Ok(())
}
