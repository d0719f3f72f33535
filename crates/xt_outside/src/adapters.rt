//! Adapters over the readers and writers of std: the edge of the program.
ghost use Rattle.std.specs.Prelude.{◌≡◌, ◌<◌, length, IfOk};
ghost use Rattle.std.specs.Io.{ReadsAtMost, WritesAtMost};
ghost use Rattle.std.specs.Io.KnownBytes.{ReadConsumes, WriteAppends};
ghost use Rattle.xt_outside.specs.Outside.{HasCause, KeepsRest};

use crate::counts::raised;
use crate::octets::{Failed, Sink, Source};
use std::io::{BufRead, Read, Write};

const CHUNK: usize = 4096;

/// Reads once, and raises the count at each error. A reader of std may write past the octets that it gives, so it is
/// given a slice of its own.
pub(crate) fn read_counted<R: Read>(
    reader: &mut R,
    faults: &mut u64,
    into: &mut [u8],
) -> Result<usize, Failed>
    ensures bound { ReadsAtMost result into.new }
    ensures octets { ReadConsumes (R.remaining reader.old) (R.remaining reader.new) result into.new }
    ensures rest { KeepsRest result into.old into.new }
    ensures cause { HasCause faults.old faults.new result }
{
    let mut chunk = [0u8; CHUNK];
    let most = into.len().min(CHUNK);
    match reader.read(&mut chunk[..most]) {
        Ok(count) => {
            into[..count].copy_from_slice(&chunk[..count]);
            Ok(count)
        }
        Err(_) => {
            *faults = raised(*faults);
            Err(Failed)
        }
    }
}

/// Reads once what the reader shows, and raises the count at each error. `ahead` is set to how many octets it shows behind those.
fn read_shown<R: BufRead>(
    reader: &mut R,
    ahead: &mut usize,
    faults: &mut u64,
    into: &mut [u8],
) -> Result<usize, Failed>
    ensures bound { ReadsAtMost result into.new }
    ensures octets { ReadConsumes (R.remaining reader.old) (R.remaining reader.new) result into.new }
    ensures rest { KeepsRest result into.old into.new }
    ensures cause { HasCause faults.old faults.new result }
{
    if into.is_empty() {
        return Ok(0);
    }
    let shown = match reader.fill_buf() {
        Ok(shown) => shown,
        Err(_) => {
            *faults = raised(*faults);
            return Err(Failed);
        }
    };
    if shown.is_empty() {
        // The end of the input, if a read says so too.
        return read_counted(reader, faults, into);
    }
    let count = shown.len().min(into.len());
    *ahead = shown.len() - count;
    into[..count].copy_from_slice(&shown[..count]);
    reader.consume(count);
    Ok(count)
}

/// Writes once, and raises the count at each error and where nothing is taken of some octets.
pub(crate) fn write_counted<W: Write>(
    writer: &mut W,
    faults: &mut u64,
    from: &[u8],
) -> Result<usize, Failed>
    ensures bound { WritesAtMost result from.now }
    ensures some { IfOk result (λ n. 0 < length from.now → 0 < n) }
    ensures octets { WriteAppends (W.contents writer.old) (W.contents writer.new) result from.now }
    ensures cause { HasCause faults.old faults.new result }
{
    match writer.write(from) {
        Ok(count) if count > 0 || from.is_empty() => Ok(count),
        _ => {
            *faults = raised(*faults);
            Err(Failed)
        }
    }
}

/// A buffered reader of std as a source. It tells its octets where the reader tells them, and has at hand what the reader has read ahead.
#[derive(Drop)]
pub struct ReadSource<R> {
    inner: R,
    ahead: usize,
    faults: u64,
}

impl<R: BufRead> ReadSource<R> {
    ghost use Rattle.xt_outside.specs.Adapters.{reader_of, reader_faults};

    /// It takes no memory.
    pub fn new(inner: R) -> ReadSource<R>
        ensures inner { reader_of result ≡ inner }
        ensures faults { reader_faults result ≡ 0 }
    {
        ReadSource {
            inner,
            ahead: 0,
            faults: 0,
        }
    }

    /// The reader, where the last read left it.
    pub fn into_inner(self) -> R
        ensures { result ≡ reader_of self }
    {
        let ReadSource {
            inner,
            ahead: _,
            faults: _,
        } = self;
        inner
    }

    /// How often it has failed.
    pub fn faults(&self) -> u64
        ensures { result ≡ reader_faults self.now }
    {
        self.faults
    }
}

impl<R: BufRead> Source for ReadSource<R> {
    ghost left = { λ s. R.remaining s.inner };

    ghost faults = { λ s. s.faults };

    fn read(&mut self, into: &mut [u8]) -> Result<usize, Failed> {
        read_shown(&mut self.inner, &mut self.ahead, &mut self.faults, into)
    }

    fn at_hand(&self) -> usize {
        self.ahead
    }
}

/// A writer of std as a sink. It tells what it took where the writer tells it.
#[derive(Drop)]
pub struct WriteSink<W> {
    inner: W,
    faults: u64,
}

impl<W: Write> WriteSink<W> {
    ghost use Rattle.xt_outside.specs.Adapters.{writer_of, writer_faults};

    /// It takes no memory.
    pub fn new(inner: W) -> WriteSink<W>
        ensures inner { writer_of result ≡ inner }
        ensures faults { writer_faults result ≡ 0 }
    {
        WriteSink { inner, faults: 0 }
    }

    /// The writer, where the last write left it.
    pub fn into_inner(self) -> W
        ensures { result ≡ writer_of self }
    {
        let WriteSink { inner, faults: _ } = self;
        inner
    }

    /// How often it has failed.
    pub fn faults(&self) -> u64
        ensures { result ≡ writer_faults self.now }
    {
        self.faults
    }
}

impl<W: Write> Sink for WriteSink<W> {
    ghost taken = { λ s. W.contents s.inner };

    ghost faults = { λ s. s.faults };

    fn write(&mut self, from: &[u8]) -> Result<usize, Failed> {
        write_counted(&mut self.inner, &mut self.faults, from)
    }
}
