//! The calls on files, made of the system.

ghost use Rattle.std.specs.Prelude.{◌≡◌, ◌≤◌, length, IfErr, IfOk};
ghost use Rattle.cam_refusals.specs.Limits.{file_limit};
ghost use Rattle.camplot.specs.Disk.{TellsOf, error_of};

use crate::calls::{About, Calls, Found, Made, Node};
use crate::reading::{Counted, IoFault, fault_of, read_all, write_whole};
use cam_refusals::limits::FILE_LIMIT;
use std::alloc::Global;
use std::fs::{self, Metadata, OpenFile, OpenOptions, Permissions};
use std::io::{self, Error, ErrorKind};
use std::os::unix::fs::{MetadataExt, OpenOptionsExt, PermissionsExt};
use std::rt::Files as SystemFiles;

/// Who may read, write and run a file, of all that its mode says.
const PERMISSIONS: u32 = 0o7777;

/// What was answered; the kind of its error is kept.
fn noted<T>(kind: &mut Option<ErrorKind>, answer: io::Result<T>) -> io::Result<T>
    ensures same { result ≡ answer }
    ensures error { kind.new ≡ error_of result }
{
    *kind = match &answer {
        Ok(_) => None,
        Err(error) => Some(error.kind()),
    };
    answer
}

fn node_of(about: &Metadata) -> Node {
    Node {
        device: about.dev(),
        number: about.ino(),
        born: about.created().ok(),
    }
}

/// The plain file at a path, where one can be seen.
fn node_at<R: SystemFiles>(rt: &R, path: &str) -> Option<Node> {
    let about = fs::metadata(rt, path).ok()?;
    if !about.is_file() {
        return None;
    }
    Some(node_of(&about))
}

/// The bytes of the file at this path, at most 268,435,456, and the kind of the error where there was one.
#[tactic(auto, using(crate::proofs::Faults::tells_of))]
fn read_file<R: SystemFiles>(
    rt: &R,
    alloc: Global,
    path: &str,
    error: &mut Option<ErrorKind>,
) -> Result<Vec<u8>, IoFault>
    ensures bound { IfOk result (λ bytes. length bytes.items ≤ file_limit) }
    ensures fault { IfErr result (λ fault. TellsOf error.new fault) }
{
    match noted(error, fs::open(rt, path)) {
        Ok(file) => {
            let mut reader = Counted::new(file);
            let read = read_all(alloc, &mut reader, FILE_LIMIT);
            *error = reader.error;
            read
        }
        Err(error) => Err(fault_of(&error)),
    }
}

/// What has no plain file at its path: nothing, or a link that leads nowhere.
fn found_no_file<R: SystemFiles>(rt: &R, path: &str) -> Found {
    match fs::symlink_metadata(rt, path) {
        Ok(_) => Found::Other,
        Err(_) => Found::Nothing,
    }
}

/// Whether a path leads to what the program or its caller has open already.
fn is_open_already(path: &str) -> bool {
    path.starts_with("/dev/") || path.starts_with("/proc/")
}

/// What stands at a path, by what the system says of it.
fn found_file<R: SystemFiles>(rt: &R, path: &str, about: &Metadata) -> io::Result<Found> {
    if about.is_dir() {
        return Err(Error::from(ErrorKind::IsADirectory));
    }
    if !about.is_file() || is_open_already(path) {
        return Ok(Found::Other);
    }
    OpenOptions::new().write(true).open(rt, path)?;
    Ok(Found::Plain(About {
        node: node_of(about),
        mode: about.mode() & PERMISSIONS,
        user: about.uid(),
        group: about.gid(),
        links: about.nlink(),
    }))
}

fn found<R: SystemFiles>(rt: &R, path: &str) -> io::Result<Found> {
    match fs::metadata(rt, path) {
        Ok(about) => found_file(rt, path, &about),
        Err(error) if error.kind() == ErrorKind::NotFound => Ok(found_no_file(rt, path)),
        Err(error) => Err(error),
    }
}

fn resolved<R: SystemFiles>(rt: &R, alloc: Global, path: &str) -> io::Result<String> {
    let real = rt.canonicalize(alloc, path)?;
    Ok(real.as_str().to_string(alloc)?)
}

/// Opens a file that is made, in place of one that an earlier run has left there.
fn opened<R: SystemFiles>(rt: &R, path: &str, mode: u32) -> io::Result<R::File> {
    let mut how = OpenOptions::new();
    how.write(true).create_new(true).mode(mode);
    match how.open(rt, path) {
        Err(error) if error.kind() == ErrorKind::AlreadyExists => {
            fs::remove_file(rt, path)?;
            how.open(rt, path)
        }
        answer => answer,
    }
}

/// Gives a file to the user and the group of the one that it will replace, where that is possible, and with the same
/// permissions.
fn give<R: SystemFiles>(rt: &R, path: &str, file: &R::File, like: About) -> io::Result<()> {
    let own = file.metadata()?;
    if own.uid() != like.user || own.gid() != like.group {
        let _ = rt.chown(path, Some(like.user), Some(like.group));
    }
    file.set_permissions(Permissions::from_mode(like.mode))
}

/// Writes all bytes to a file that was made, up to the disk.
fn filled<R: SystemFiles>(
    rt: &R,
    path: &str,
    file: &mut R::File,
    like: Option<About>,
    bytes: &[u8],
) -> io::Result<Made>
    ensures { IfOk result (λ made. made.count ≡ length bytes.now) }
{
    let count = write_whole(file, bytes)?;
    if let Some(like) = like {
        give(rt, path, file, like)?;
    }
    file.sync_all()?;
    let node = node_of(&file.metadata()?);
    Ok(Made { node, count })
}

/// Makes a file of these bytes. Where that fails it is removed.
fn made<R: SystemFiles>(rt: &R, path: &str, like: Option<About>, bytes: &[u8]) -> io::Result<Made>
    ensures { IfOk result (λ made. made.count ≡ length bytes.now) }
{
    let mode = like.map_or(0o666, |like| like.mode);
    let mut file = opened(rt, path, mode)?;
    let answer = filled(rt, path, &mut file, like, bytes);
    if answer.is_err() {
        let _ = fs::remove_file(rt, path);
    }
    answer
}

/// Renames a file, unless another run has taken its path over meanwhile.
fn renamed<R: SystemFiles>(rt: &R, from: &str, node: Node, to: &str) -> io::Result<()> {
    if node_at(rt, from) != Some(node) {
        return Err(Error::from(ErrorKind::AlreadyExists));
    }
    fs::rename(rt, from, to)
}

/// Writes the file at this path anew; how many bytes its writer took.
fn written<R: SystemFiles>(rt: &R, path: &str, bytes: &[u8]) -> io::Result<usize>
    ensures { IfOk result (λ count. count ≡ length bytes.now) }
{
    let mut file = fs::create(rt, path)?;
    write_whole(&mut file, bytes)
}

/// The calls, made of the system.
#[derive(Drop)]
pub struct SystemCalls<R> {
    rt: R,
    /// The kind of the error that the last call answered.
    error: Option<ErrorKind>,
    /// What the last search found, and the kind of the error by which a file was not made or renamed since.
    found: Option<Found>,
    unmade: Option<ErrorKind>,
}

impl<R: SystemFiles + Copy> SystemCalls<R> {
    pub fn new(rt: R) -> SystemCalls<R> {
        SystemCalls {
            rt,
            error: None,
            found: None,
            unmade: None,
        }
    }
}

impl<R: SystemFiles + Copy> Calls for SystemCalls<R> {
    ghost use Rattle.std.specs.Prelude.{None};

    ghost contents = { λ _. None };

    ghost error = { λ calls. calls.error };

    ghost known = { λ calls. record { found = calls.found; unmade = calls.unmade } };

    fn read(&mut self, alloc: Global, path: &str) -> Result<Vec<u8>, IoFault> {
        read_file(&self.rt, alloc, path, &mut self.error)
    }

    fn node(&mut self, path: &str) -> Option<Node> {
        self.error = None;
        node_at(&self.rt, path)
    }

    fn find(&mut self, path: &str) -> io::Result<Found> {
        let answer = noted(&mut self.error, found(&self.rt, path));
        self.found = match &answer {
            Ok(found) => Some(*found),
            Err(_) => None,
        };
        self.unmade = None;
        answer
    }

    fn resolve(&mut self, alloc: Global, path: &str) -> io::Result<String> {
        noted(&mut self.error, resolved(&self.rt, alloc, path))
    }

    fn make(&mut self, path: &str, like: Option<About>, bytes: &[u8]) -> io::Result<Made> {
        let answer = noted(&mut self.error, made(&self.rt, path, like, bytes));
        self.unmade = self.error;
        answer
    }

    fn rename(&mut self, from: &str, made: Made, to: &str) -> io::Result<()> {
        let answer = noted(&mut self.error, renamed(&self.rt, from, made.node, to));
        self.unmade = self.error;
        answer
    }

    fn remove(&mut self, path: &str) {
        let _ = fs::remove_file(&self.rt, path);
    }

    fn write_over(&mut self, path: &str, bytes: &[u8]) -> io::Result<usize> {
        noted(&mut self.error, written(&self.rt, path, bytes))
    }
}
