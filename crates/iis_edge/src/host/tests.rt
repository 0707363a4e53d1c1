//! Readers and an output that fail in mid-stream.
use super::{HostSink, read_whole};
use crate::edge::{FetchStop, Sink};
use std::alloc::Global;
use std::fmt::Display;
use std::io;
use std::io::{ErrorKind, Read};

// Is interrupted, gives two bytes, and then the same error at each read.
#[derive(Drop)]
struct Flaky {
    reads: u32,
    end: ErrorKind,
}

impl Read for Flaky {
    fn read(&mut self, buf: &mut [u8]) -> io::Result<usize> {
        self.reads = self.reads.saturating_add(1);
        if self.reads == 1 {
            return Err(io::Error::from(ErrorKind::Interrupted));
        }
        if self.reads == 2 && buf.len() >= 2 {
            buf[0] = b'o';
            buf[1] = b'k';
            return Ok(2);
        }
        Err(io::Error::from(self.end))
    }
}

// What reading within two bytes answers, and whether the two bytes are in hand then.
fn read(alloc: Global, end: ErrorKind) -> (Result<(), FetchStop>, bool) {
    let mut bytes = Vec::new(alloc);
    let answer = read_whole(Flaky { reads: 0, end }, 2, &mut bytes);
    (answer, bytes.as_slice() == b"ok".as_slice())
}

#[test]
fn reader_fails_in_mid_stream(rt: HostRuntime) {
    assert!(rt; read(rt.alloc(), ErrorKind::Other) == (Err(FetchStop::Failed), true));
    assert!(rt; read(rt.alloc(), ErrorKind::OutOfMemory) == (Err(FetchStop::Memory), true));
}

// Takes nothing.
#[derive(Drop)]
struct Closed {}

impl Print for Closed {
    fn print<D: Display + Drop>(&self, _value: D) -> io::Result<()> {
        Err(io::Error::from(ErrorKind::BrokenPipe))
    }

    fn println<D: Display + Drop>(&self, _value: D) -> io::Result<()> {
        Err(io::Error::from(ErrorKind::BrokenPipe))
    }

    fn write_all(&self, _bytes: &[u8]) -> io::Result<()> {
        Err(io::Error::from(ErrorKind::BrokenPipe))
    }
}

#[test]
fn output_is_closed(rt: HostRuntime) {
    assert!(rt; HostSink::new(&Closed {}).put(b"hello").is_err());
}
