//! Bytes from readers and to writers: a file's, or any other's.

ghost use Rattle.std.specs.Prelude.{◌≡◌, ◌≢◌, ◌+◌, ◌^◌, ◌<◌, length, IfErr, IfOk, OnErr, OnOk, None};
ghost use Rattle.std.specs.Io.{ReadsAtMost};
ghost use Rattle.std.specs.Io.KnownBytes.{Appends, ReadConsumes};
ghost use Rattle.cam_station.specs.Files.{HasRisenBy};
ghost use Rattle.camplot.specs.Disk.{
  AreAllOf,
  HasGivenWithin,
  IsFaultOf,
  IsWhyNotAll,
  TellsOf,
  fault_heard,
  reader_seen,
};
ghost use Rattle.camplot.specs.declared.reading.IoFault.TheVariants.{TooLong};

use cam_station::FileFault;
use std::alloc::{AllocError, Global};
use std::io::{self, ErrorKind, Read, Write};

/// How many bytes one read may give at most.
const CHUNK: usize = 65_536;

/// Why bytes were not all read or not all written.
#[derive(Clone, Copy)]
pub enum IoFault {
    /// The reader or the writer answered an error of this kind.
    Failed(ErrorKind),
    /// The reader has given more bytes than may be read.
    TooLong,
    /// Memory was refused.
    Memory,
}

impl IoFault {
    /// What a line of a script is told of it.
    pub fn file_fault(self) -> FileFault
        ensures { result ≡ fault_heard self }
    {
        match self {
            IoFault::Failed(_) | IoFault::TooLong => FileFault::Failed,
            IoFault::Memory => FileFault::Memory,
        }
    }

    /// Why a file failed, and what to do; `missing` is what is said where nothing is at the path.
    pub fn why(self, missing: &'static str) -> Why {
        match self {
            IoFault::TooLong => Why::of(
                "it has more than 268,435,456 bytes",
                "files and scripts have at most as many: plot the layer in parts",
            ),
            IoFault::Memory => Why::of("no memory", "close what else runs"),
            IoFault::Failed(ErrorKind::NotFound) => Why {
                reason: missing,
                remedy: None,
            },
            IoFault::Failed(kind) => why_failed(kind),
        }
    }
}

/// Why a file failed, and what to do, in words.
#[derive(Clone, Copy)]
pub struct Why {
    pub reason: &'static str,
    /// Nothing where the path leads nowhere, so that it is the path that has to be looked at.
    pub remedy: Option<&'static str>,
}

impl Why {
    /// Nothing has failed.
    pub const NONE: Why = Why {
        reason: "",
        remedy: None,
    };

    fn of(reason: &'static str, remedy: &'static str) -> Why {
        Why {
            reason,
            remedy: Some(remedy),
        }
    }
}

/// Why a file that is there failed.
fn why_failed(kind: ErrorKind) -> Why {
    match kind {
        ErrorKind::PermissionDenied => Why::of(
            "permission is denied",
            "whoever owns the file or its folder has to permit it",
        ),
        ErrorKind::IsADirectory => Why::of("it is a folder", "name a file in it"),
        ErrorKind::NotADirectory => Why::of(
            "a part of its path is no folder",
            "look at the names between the slashes",
        ),
        ErrorKind::ReadOnlyFilesystem => {
            Why::of("its file system is read-only", "write to another folder")
        }
        ErrorKind::StorageFull | ErrorKind::QuotaExceeded => Why::of(
            "its file system is full",
            "make room there, or write to another folder",
        ),
        ErrorKind::FileTooLarge => Why::of(
            "it would be longer than a file may be here",
            "raise the limit (ulimit -f), or set a smaller window",
        ),
        ErrorKind::InvalidFilename => {
            Why::of("its path is too long", "give the file a shorter name")
        }
        ErrorKind::AlreadyExists => Why::of(
            "another run writes it too",
            "let one run after the other write it",
        ),
        ErrorKind::BrokenPipe => Why::of("nobody reads it any more", "keep its reader running"),
        _ => Why::of(
            "reading or writing it failed",
            "look at the disk that it is on: the system gives no more reason",
        ),
    }
}

/// So many zeros, for a reader to write over.
fn zeros(alloc: Global, len: usize) -> Result<Vec<u8>, AllocError>
    ensures { IfOk result (λ chunk. length chunk.items ≡ len) }
{
    vec![in alloc; 0u8; len]
}

/// Whether memory was refused, or the file failed.
pub fn fault_of(error: &io::Error) -> IoFault
    ensures value { IsFaultOf error.now result }
    ensures length { result ≢ TooLong }
{
    match error.kind() {
        ErrorKind::OutOfMemory => IoFault::Memory,
        kind => IoFault::Failed(kind),
    }
}

/// A reader, with the number of its reads that failed, which stays at `u64::MAX`.
#[derive(Drop)]
pub struct Counted<R> {
    pub reader: R,
    pub failures: u64,
    /// The kind of the error of its last read, where that failed.
    pub error: Option<ErrorKind>,
    /// Why the bytes of it that were wanted last were not had.
    pub why: Why,
}

impl<R: Read> Counted<R> {
    pub fn new(reader: R) -> Counted<R>
        ensures reader { result.reader ≡ reader }
        ensures failures { result.failures ≡ 0 }
        ensures error { result.error ≡ None }
    {
        Counted {
            reader,
            failures: 0,
            error: None,
            why: Why::NONE,
        }
    }

    /// Reads once.
    #[tactic(auto, using(crate::proofs::Faults::tells_of))]
    fn read(&mut self, piece: &mut [u8]) -> Result<usize, IoFault>
        ensures bound { ReadsAtMost result piece.new }
        ensures bytes { ReadConsumes (R.remaining self.old.reader) (R.remaining self.new.reader) result piece.new }
        ensures ok { OnOk result (self.new.failures ≡ self.old.failures) }
        ensures counted { OnErr result (HasRisenBy 1 self.old.failures self.new.failures) }
        ensures kind { IfErr result (λ fault. fault ≢ TooLong) }
        ensures error { IfErr result (λ fault. TellsOf self.new.error fault) }
        ensures none { OnOk result (self.new.error ≡ self.old.error) }
    {
        match self.reader.read(piece) {
            Ok(count) => Ok(count),
            Err(error) => {
                self.failures = self.failures.saturating_add(1);
                self.error = Some(error.kind());
                Err(fault_of(&error))
            }
        }
    }
}

/// All bytes of a reader. They are too many where they are more than `limit`: it is read to its end, or one byte past the
/// limit, and no further. It fails only where a read of it fails, and want of memory is told of no reader that has given
/// more than the limit.
///
/// Each read gives at least one byte, the end or a fault, so the reading ends.
pub fn read_all<R: Read>(
    alloc: Global,
    reader: &mut Counted<R>,
    limit: usize,
) -> Result<Vec<u8>, IoFault>
    requires room { limit + 1 < 2 ^ 64 }
    ensures ok { IfOk result (λ bytes. AreAllOf (R.remaining reader.old.reader) limit bytes.items) }
    ensures err { IfErr result (λ fault. IsWhyNotAll fault limit
        (reader_seen (R.remaining reader.old.reader) reader.old.failures)
        (reader_seen (R.remaining reader.new.reader) reader.new.failures)) }
    ensures taken { HasGivenWithin (R.remaining reader.old.reader) (R.remaining reader.new.reader)
        (limit + 1) }
    ensures told { IfErr result (λ fault. TellsOf reader.new.error fault) }
{
    reader.error = None;
    let Ok(mut chunk) = zeros(alloc, CHUNK) else {
        return Err(IoFault::Memory);
    };
    let buffer = chunk.as_mut_slice();
    let mut bytes = Vec::new(alloc);
    for _ in 0..limit + 1 {
        let room = CHUNK.min(limit + 1 - bytes.len());
        let piece = &mut buffer[..room];
        let count = match reader.read(piece) {
            Ok(count) => count,
            Err(fault) => return Err(fault),
        };
        if count == 0 {
            return Ok(bytes);
        }
        if count > limit - bytes.len() {
            return Err(IoFault::TooLong);
        }
        if bytes.extend_from_slice(&piece[..count]).is_err() {
            return Err(IoFault::Memory);
        }
    }
    Err(IoFault::TooLong)
}

/// Writes all the bytes; how many they are. Where that fails nothing is known of how many of them were written.
pub fn write_whole<W: Write>(writer: &mut W, bytes: &[u8]) -> io::Result<usize>
    ensures appended { OnOk result (Appends (W.contents writer.old) (W.contents writer.new) bytes.now) }
    ensures count { IfOk result (λ count. count ≡ length bytes.now) }
{
    match writer.write_all(bytes) {
        Ok(()) => Ok(bytes.len()),
        Err(error) => Err(error),
    }
}
