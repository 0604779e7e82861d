//! All bytes of a reader, and all to a writer, whatever it takes at a time.

ghost use Rattle.std.specs.Prelude.{◌≡◌, ◌≤◌, ◌<◌, length, OnOk, OnErr, IfOk};
ghost use Rattle.std.specs.Io.KnownBytes.{Appends, Consumes, IsAtEnd};
ghost use Rattle.ww_run.specs.Streams.{AppendsFront, ConsumesSome};

use std::alloc::{AllocError, Global};
use std::io;
use std::io::{Read, Write};

/// How many bytes are asked for in one call.
const BLOCK: usize = 4096;

/// Why the bytes of a reader were not had.
#[derive(Clone, Copy, Debug, PartialEq, Eq)]
pub enum ReadFault {
    /// The reader failed.
    Failed,
    /// There was no memory for the bytes.
    NoMemory,
}

impl From<AllocError> for ReadFault {
    ghost use Rattle.ww_run.specs.declared.streams.ReadFault.TheVariants.{NoMemory};

    ghost from_gives = { λ _ fault. fault ≡ NoMemory };

    fn from(_e: AllocError) -> ReadFault {
        ReadFault::NoMemory
    }
}

/// Reads up to `most` bytes, or to the end of the input. Any error of the reader ends it.
pub fn read_front<R: Read>(alloc: Global, reader: &mut R, most: usize) -> Result<Vec<u8>, ReadFault>
    ensures bound { IfOk result (λ found. length found.items ≤ most) }
    ensures bytes { IfOk result (λ found. Consumes (R.remaining reader.old) (R.remaining reader.new) found.items) }
    ensures end { IfOk result (λ found. length found.items < most → IsAtEnd (R.remaining reader.new)) }
    ensures failed { OnErr result (ConsumesSome most (R.remaining reader.old) (R.remaining reader.new)) }
{
    let mut found = Vec::new(alloc);
    let mut block = [0u8; BLOCK];
    while found.len() < most {
        let room = (most - found.len()).min(BLOCK);
        match reader.read(&mut block[..room]) {
            Ok(0) => return Ok(found),
            Ok(n) => found.extend_from_slice(&block[..n])?,
            Err(_) => return Err(ReadFault::Failed),
        }
    }
    Ok(found)
}

/// Writes all of the bytes, or a front of them where the writer fails. A write that takes no byte is a failure too.
pub fn write_out<W: Write>(writer: &mut W, bytes: &[u8]) -> io::Result<()>
    ensures ok { OnOk result (Appends (W.contents writer.old) (W.contents writer.new) bytes.now) }
    ensures err { OnErr result (AppendsFront (W.contents writer.old) (W.contents writer.new) bytes.now) }
{
    let mut at = 0;
    while at < bytes.len() {
        let (_, rest) = bytes.split_at(at);
        match writer.write(rest)? {
            0 => return Err(io::Error::from(io::ErrorKind::WriteZero)),
            n => at += n,
        }
    }
    Ok(())
}
