// A reader and a writer that move a few bytes in each call, and fail.
use std::alloc::{AllocError, Global};
use std::io;
use std::io::{Read, Write};

/// How a device works: the most bytes that it moves in a call, and the number of calls before the one that fails. A
/// call fails as if it were interrupted.
#[derive(Clone, Copy)]
pub struct Pace {
    most: usize,
    calls: u64,
}

impl Pace {
    /// A pace without limits.
    pub const FREE: Pace = Pace {
        most: usize::MAX,
        calls: u64::MAX,
    };

    /// Returns the pace of at most this many bytes in a call, in which no call fails.
    pub fn of(most: usize) -> Pace {
        Pace {
            most,
            calls: u64::MAX,
        }
    }

    /// Returns the pace that is written as two numbers, with a blank between them. What is no number is no limit.
    pub fn written(text: &str) -> Pace {
        match text.split_once(' ') {
            Some((most, calls)) => Pace {
                most: most.parse().unwrap_or(usize::MAX),
                calls: calls.parse().unwrap_or(u64::MAX),
            },
            None => Pace::FREE,
        }
    }

    /// Counts the next call. Returns how many of this many bytes it moves, or fails.
    fn next(&mut self, len: usize) -> io::Result<usize> {
        if self.calls == 0 {
            return Err(io::Error::from(io::ErrorKind::Interrupted));
        }
        self.calls -= 1;
        Ok(self.most.min(len))
    }
}

/// A reader of bytes.
#[derive(Drop)]
pub struct Source<'a> {
    bytes: &'a [u8],
    pace: Pace,
}

impl<'a> Source<'a> {
    /// Creates a reader of these bytes.
    pub fn new(bytes: &'a [u8], pace: Pace) -> Source<'a> {
        Source { bytes, pace }
    }

    /// Returns the number of bytes that are left.
    pub fn unread(&self) -> usize {
        self.bytes.len()
    }
}

impl Read for Source<'_> {
    fn read(&mut self, buf: &mut [u8]) -> io::Result<usize> {
        let most = self.pace.next(buf.len())?;
        let Some(front) = buf.get_mut(..most) else {
            return Err(io::Error::from(io::ErrorKind::Other));
        };
        self.bytes.read(front)
    }
}

/// A writer that keeps what it takes.
#[derive(Drop)]
pub struct Sink {
    bytes: Vec<u8>,
    pace: Pace,
    fails_to_flush: bool,
}

impl Sink {
    /// The number of bytes for which a writer has room from the start.
    const ROOM: usize = 4096;

    /// Creates a writer, which fails to flush if that is asked for.
    pub fn new(alloc: Global, pace: Pace, fails_to_flush: bool) -> Result<Sink, AllocError> {
        Ok(Sink {
            bytes: Vec::with_capacity(alloc, Sink::ROOM)?,
            pace,
            fails_to_flush,
        })
    }

    /// Returns what was written. The error is `InvalidData` if it is not UTF-8.
    pub fn text(&self) -> io::Result<&str> {
        match str::from_utf8(self.bytes.as_slice()) {
            Ok(text) => Ok(text),
            Err(_) => Err(io::Error::from(io::ErrorKind::InvalidData)),
        }
    }
}

impl Write for Sink {
    fn write(&mut self, buf: &[u8]) -> io::Result<usize> {
        let most = self.pace.next(buf.len())?;
        let Some(front) = buf.get(..most) else {
            return Err(io::Error::from(io::ErrorKind::Other));
        };
        self.bytes.extend_from_slice(front)?;
        Ok(most)
    }

    fn flush(&mut self) -> io::Result<()> {
        if self.fails_to_flush {
            return Err(io::Error::from(io::ErrorKind::Other));
        }
        Ok(())
    }
}
