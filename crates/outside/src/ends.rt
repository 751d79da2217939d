// Reading and writing by any reader and writer: what the files of the system are read and written by.
ghost use Rattle.std.specs.Prelude.{◌≡◌, ◌≤◌, ◌<◌, ◌+◌, ◌-◌, ◌^◌, min, length, take, ◌↔◌, IfOk, OnErr, IfSome};
ghost use Rattle.std.specs.Io.KnownBytes.{Appends, Keeps};

use crate::{ShelfError, SinkError};
use std::alloc::Global;
use std::io;
use std::io::{ErrorKind, Read, Write};

// How often a write that was interrupted is tried.
const MOST_TRIES: u32 = 1_000;

/// What a shelf answers for an error of the system.
pub fn cause_of(kind: ErrorKind) -> ShelfError
    ensures memory { (result ≡ ShelfError.Memory) ↔ (kind ≡ ErrorKind.OutOfMemory) }
    ensures absent { (result ≡ ShelfError.Absent) ↔ (kind ≡ ErrorKind.NotFound) }
    ensures no_length { ¬ (result ≡ ShelfError.TooLong) }
{
    match kind {
        ErrorKind::OutOfMemory => ShelfError::Memory,
        ErrorKind::NotFound => ShelfError::Absent,
        _ => ShelfError::Failed,
    }
}

/// What a reader still gives, or one byte more than the limit where there are so many. A read that
/// was interrupted is tried again.
pub fn read_front<F: Read + Drop>(alloc: Global, reader: F, limit: u64) -> io::Result<Vec<u8>>
    ensures { IfOk result (λ bytes. IfSome (F.remaining reader) (λ left.
        bytes.items ≡ take (min (limit + 1) (2 ^ 64 - 1)) left)) }
{
    let mut bytes = Vec::new(alloc);
    reader
        .take(limit.saturating_add(1))
        .read_to_end(&mut bytes)?;
    Ok(bytes)
}

/// Writes the front of the piece, and answers how many bytes that is: at least one, where the piece
/// isn't empty. A write that was interrupted is tried again.
pub fn write_front<W: Write>(writer: &mut W, piece: &[u8]) -> Result<usize, SinkError>
    ensures within { IfOk result (λ count. count ≤ length piece.now) }
    ensures some { IfOk result (λ count. 0 < length piece.now → 0 < count) }
    ensures written { IfOk result (λ count.
        Appends (W.contents writer.old) (W.contents writer.new) (take count piece.now)) }
    ensures kept { OnErr result (Keeps (W.contents writer.old) (W.contents writer.new)) }
{
    for _ in 0..MOST_TRIES {
        match writer.write(piece) {
            Ok(count) if count > 0 || piece.is_empty() => return Ok(count),
            Ok(_) => return Err(SinkError::Failed),
            Err(error) => {
                if error.kind() != ErrorKind::Interrupted {
                    return Err(SinkError::Failed);
                }
            }
        }
    }
    Err(SinkError::Failed)
}

/// Writes all of the bytes.
pub fn write_whole<W: Write + Drop>(mut writer: W, bytes: &[u8]) -> io::Result<W>
    ensures { IfOk result (λ after. Appends (W.contents writer) (W.contents after) bytes.now) }
{
    writer.write_all(bytes)?;
    Ok(writer)
}
