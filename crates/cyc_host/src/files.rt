//! This file reads and writes the files that a command line names.
ghost use Rattle.std.specs.Prelude.{◌≡◌, IfOk, IfSome, take};

use crate::answer::Answer;
use crate::system::file_limit;
use cyc_cli::FileName;
use std::alloc::{AllocError, Global};
use std::fs::{File, Metadata, TryLockError};
use std::io::{Input, Read, Write};
use std::os::unix::fs::{MetadataExt, PermissionsExt};
use std::path::PathBuf;
use std::rt::Files;
use std::{fs, io};

/// The largest number of bytes of a source file that are read: one more than a program may have, to detect a program that is too large.
const MOST_TEXT: u64 = 1_048_577;

const MOST_IMAGE: u64 = 33_554_432;

/// A limit above the size of every file of places, which lists the source position or other origin of each word of an image.
const MOST_PLACES: u64 = 268_435_456;

/// Returns the outcome of a command whose read of a file failed, and prints the reason for the failure on standard error.
fn report_read_failure<R: Eprint>(rt: &R, name: &str, error: &io::Error) -> Answer {
    if error.kind() == io::ErrorKind::OutOfMemory {
        return Answer::NoMemory;
    }
    let _ = eprintln!(rt;
        "cyclone: {} cannot be read: {error}",
        FileName(name.as_bytes())
    );
    Answer::ReadFault
}

/// Returns the outcome of a command whose write of a file failed, and prints the reason for the failure on standard error.
fn report_write_failure<R: Eprint>(rt: &R, name: &str, error: &io::Error) -> Answer {
    let _ = eprintln!(rt;
        "cyclone: {} cannot be written: {error}",
        FileName(name.as_bytes())
    );
    Answer::WriteFault
}

/// Returns the capacity for the bytes of a file, of which at most `most` are read. The capacity is the file's length plus one, so that
/// nothing is moved while reading and the end is seen. A pipe does not report its length.
fn room_for<R: Files>(rt: &R, path: &str, most: u64) -> usize {
    match fs::metadata(rt, path) {
        Ok(metadata) if metadata.len() > 0 => {
            usize::try_from(metadata.len().saturating_add(1).min(most)).unwrap_or(0)
        }
        _ => 0,
    }
}

/// Returns at most `most` bytes of a reader, with capacity for `room` bytes allocated before the first byte is read.
fn read_up_to<R: Read + Drop>(
    alloc: Global,
    reader: R,
    most: u64,
    room: usize,
) -> io::Result<Vec<u8>>
    ensures { IfOk result (λ v. IfSome (R.remaining reader) (λ bytes. v.items ≡ take most bytes)) }
{
    let mut bytes = Vec::with_capacity(alloc, room)?;
    reader.take(most).read_to_end(&mut bytes)?;
    Ok(bytes)
}

/// Returns the name of the file that a word of the command line names: for `-` the name of the standard input, unless a file
/// has the name `-`.
pub fn name_of_file<'a, R: Files>(rt: &R, word: &'a str) -> &'a str {
    if word == "-" && fs::symlink_metadata(rt, word).is_err() {
        "/dev/stdin"
    } else {
        word
    }
}

/// Returns at most `most` bytes of a file.
fn read_named<R: Files + AllocGlobal + Input>(
    rt: &R,
    path: &str,
    most: u64,
) -> io::Result<Vec<u8>> {
    // If the standard input were opened anew, it would be read from its beginning.
    if name_of_file(rt, path) != path {
        return read_up_to(rt.alloc(), rt.reader(), most, 0);
    }
    let file = fs::open(rt, path)?;
    read_up_to(rt.alloc(), file, most, room_for(rt, path, most))
}

/// Reads a file, or returns the outcome of the command if the file cannot be read.
fn read_file<R: Files + AllocGlobal + Eprint + Input>(
    rt: &R,
    path: &str,
    most: u64,
) -> Result<Vec<u8>, Answer> {
    match read_named(rt, path, most) {
        Ok(bytes) => Ok(bytes),
        Err(error) => Err(report_read_failure(rt, path, &error)),
    }
}

/// Returns the text of a program: all of its source file, or one byte more than a program may have.
pub fn read_text<R: Files + AllocGlobal + Eprint + Input>(
    rt: &R,
    path: &str,
) -> Result<Vec<u8>, Answer> {
    read_file(rt, path, MOST_TEXT)
}

/// Returns the text of a regular file, if it can be read; prints nothing if it cannot.
pub fn find_text<R: Files + AllocGlobal>(rt: &R, path: &str) -> Option<Vec<u8>> {
    let metadata = fs::metadata(rt, path).ok()?;
    if !metadata.is_file() {
        return None;
    }
    let file = fs::open(rt, path).ok()?;
    read_up_to(rt.alloc(), file, MOST_TEXT, room_for(rt, path, MOST_TEXT)).ok()
}

/// Returns all bytes of an image's file. A file larger than any image is a read fault.
pub fn read_image<R: Files + AllocGlobal + Eprint + Input>(
    rt: &R,
    path: &str,
) -> Result<Vec<u8>, Answer> {
    let bytes = read_file(rt, path, MOST_IMAGE + 1)?;
    if bytes.len() as u64 > MOST_IMAGE {
        let _ = eprintln!(rt;
            "cyclone: {} is larger than any image",
            FileName(path.as_bytes())
        );
        return Err(Answer::ReadFault);
    }
    Ok(bytes)
}

/// Returns the bytes of a file of places, which lists the source position or other origin of each word of an image.
pub fn read_places<R: Files + AllocGlobal + Eprint + Input>(
    rt: &R,
    path: &str,
) -> Result<Vec<u8>, Answer> {
    read_file(rt, path, MOST_PLACES)
}

/// Returns true if two paths name the same file, by its device and inode numbers.
fn is_one(first: &Metadata, second: &Metadata) -> bool {
    first.dev() == second.dev() && first.ino() == second.ino()
}

/// Returns true if two names refer to the same regular file: by the same name, by links, or by the number of an open file.
pub fn is_one_file<R: Files>(rt: &R, first: &str, second: &str) -> bool {
    match (fs::metadata(rt, first), fs::metadata(rt, second)) {
        (Ok(first), Ok(second)) => first.is_file() && is_one(&first, &second),
        _ => false,
    }
}

/// The largest number of links that are followed from a name, as the operating system follows them.
const MOST_LINKS: u32 = 40;

/// Returns the name at the end of the links that begin with a name; a file of that name need not exist yet.
fn end_of_links<R: Files + AllocGlobal>(rt: &R, path: &str) -> Result<PathBuf, AllocError> {
    let mut end = PathBuf::from_str(rt.alloc(), ".")?;
    end.push(path)?;
    for _ in 0..MOST_LINKS {
        let Ok(link) = fs::read_link(rt, end.as_path()) else {
            break;
        };
        end.pop();
        // If the target of a link begins at the root, then it replaces the complete path.
        end.push(link)?;
    }
    Ok(end)
}

/// Returns true if the symbolic links of a path lead to a file that does not exist, so that a write would create this file.
fn is_free<R: Files>(rt: &R, path: &str) -> bool {
    match fs::metadata(rt, path) {
        Err(error) => error.kind() == io::ErrorKind::NotFound,
        Ok(_) => false,
    }
}

/// Returns true if two names of files that do not exist yet end at the same name in the same directory.
fn have_one_end<R: Files + AllocGlobal>(rt: &R, first: &str, second: &str) -> bool {
    let (Ok(mut first), Ok(mut second)) = (end_of_links(rt, first), end_of_links(rt, second)) else {
        // If the files to which the names' links lead cannot be determined, they are taken to be the same file.
        return true;
    };
    if first.as_path().file_name() != second.as_path().file_name() {
        return false;
    }
    first.pop();
    second.pop();
    match (
        fs::metadata(rt, first.as_path()),
        fs::metadata(rt, second.as_path()),
    ) {
        (Ok(first), Ok(second)) => is_one(&first, &second),
        _ => false,
    }
}

/// Returns true if two names, of which one is to be written, will denote one file, even if neither file exists yet.
pub fn will_be_one_file<R: Files + AllocGlobal>(rt: &R, first: &str, second: &str) -> bool {
    is_one_file(rt, first, second)
        || is_free(rt, first) && is_free(rt, second) && have_one_end(rt, first, second)
}

/// The kind of the existing directory entry with the name of the output file, if there is one, which determines how the file is written.
#[derive(Clone, Copy)]
enum Place {
    /// The directory has no entry with the name of the output file, so a new file is made.
    Free,
    /// The entry is a regular file with these permissions: a new file that replaces it gets these permissions.
    Taken(u32),
    /// The directory entry with the name of the output file is a link, a device or a pipe. The output is written to this entry, which is
    /// not replaced by a new file.
    Kept,
}

/// The permission bits of a file mode for the owner, for the group and for all other users. A file mode also has bits that
/// are not permissions, which a write to the file clears.
const PERMISSIONS: u32 = 0o777;

fn place_of<R: Files>(rt: &R, path: &str) -> Place {
    match fs::symlink_metadata(rt, path) {
        Ok(metadata) if metadata.is_file() => Place::Taken(metadata.mode() & PERMISSIONS),
        Err(error) if error.kind() == io::ErrorKind::NotFound => Place::Free,
        _ => Place::Kept,
    }
}

/// The largest number of names that are tried for a temporary file.
const MOST_NAMES: u32 = 100;

/// A temporary file in the directory of the output file, locked while the compilation is running.
#[derive(Drop)]
struct Part {
    file: File,
    name: String,
}

/// Returns true if a name refers to this open file, and is not a link.
fn leads_to<R: Files>(rt: &R, name: &str, file: &File) -> bool {
    match (fs::symlink_metadata(rt, name), file.metadata()) {
        (Ok(named), Ok(opened)) => named.is_file() && is_one(&named, &opened),
        _ => false,
    }
}

/// Removes the temporary file of a compilation that was killed, that is, a file that no process has locked. Returns true if
/// the file was removed.
fn take_away<R: Files<File = File>>(rt: &R, name: &str) -> bool {
    match fs::symlink_metadata(rt, name) {
        Ok(metadata) if metadata.is_file() => {}
        _ => return false,
    }
    let Ok(left) = fs::open(rt, name) else {
        return false;
    };
    left.try_lock().is_ok() && leads_to(rt, name, &left) && fs::remove_file(rt, name).is_ok()
}

/// Creates a new file with this name, or returns `None` if another compilation has the file.
fn create_part<R: Files<File = File>>(rt: &R, name: &str) -> io::Result<Option<File>> {
    let created = match File::create_new(rt, name) {
        Err(error) if error.kind() == io::ErrorKind::AlreadyExists && take_away(rt, name) => {
            File::create_new(rt, name)
        }
        created => created,
    };
    match created {
        Ok(file) => match file.try_lock() {
            // Another process may have removed the file before it was locked.
            Ok(()) if leads_to(rt, name, &file) => Ok(Some(file)),
            Ok(()) | Err(TryLockError::WouldBlock) => Ok(None),
            // On a file system without locks, no process removes temporary files.
            Err(TryLockError::Error(_)) => Ok(Some(file)),
        },
        Err(error) if error.kind() == io::ErrorKind::AlreadyExists => Ok(None),
        Err(error) => Err(error),
    }
}

/// Creates a temporary file in the directory of the output file, if possible.
fn create_beside<R: Files<File = File> + AllocGlobal>(
    rt: &R,
    path: &str,
) -> Result<Option<Part>, AllocError> {
    for number in 0..MOST_NAMES {
        let name = format!(in rt.alloc(); "{path}.cyclone-part{number}")?;
        match create_part(rt, name.as_str()) {
            Ok(Some(file)) => return Ok(Some(Part { file, name })),
            Ok(None) => {}
            Err(_) => return Ok(None),
        }
    }
    Ok(None)
}

/// The bits of a device number that identify its driver. Network and user-space file systems are on devices whose driver number is 0.
const DRIVER: u64 = 0xffff_f000_000f_ff00;

/// Returns true if a file is on a device whose driver number is 0, such as that of a network file system. On such a device a failed
/// write may be reported as late as when the file is closed.
fn is_elsewhere(metadata: &Metadata) -> bool {
    metadata.is_file() && metadata.dev() & DRIVER == 0
}

/// Writes all of these bytes to an open file, from the file's beginning. On a device with driver number 0 the file is also
/// synced. Without this sync, an error might be reported only by the close, whose result std ignores.
fn fill(file: &mut File, bytes: &[u8]) -> io::Result<()> {
    file.write_all(bytes)?;
    if is_elsewhere(&file.metadata()?) {
        file.sync_all()?;
    }
    Ok(())
}

/// Returns true if a file of `length` bytes with the name `path` would exceed the system's limit of file sizes: the system kills a
/// process that writes beyond this limit.
fn is_too_long<R: Files>(rt: &R, path: &str, length: usize) -> bool {
    let is_file = match fs::metadata(rt, path) {
        Ok(metadata) => metadata.is_file(),
        Err(_) => true,
    };
    is_file && length as u64 > file_limit(rt)
}

/// Sets the permissions of an open file to `mode`, unless the file has them already.
fn permit(file: &File, mode: u32) -> io::Result<()> {
    let mut permissions = file.metadata()?.permissions();
    if permissions.mode() & PERMISSIONS == mode {
        return Ok(());
    }
    permissions.set_mode(mode);
    file.set_permissions(permissions)
}

/// Writes bytes to a temporary file with the required permissions, and renames the file to this name. The file is closed after it is
/// renamed, so that no process takes it for an abandoned file.
fn fill_part<R: Files>(
    rt: &R,
    path: &str,
    mode: Option<u32>,
    part: &mut Part,
    bytes: &[u8],
) -> io::Result<()> {
    if let Some(mode) = mode {
        permit(&part.file, mode)?;
    }
    fill(&mut part.file, bytes)?;
    fs::rename(rt, part.name.as_str(), path)
}

/// Writes bytes to a temporary file, and renames the file to this name, so that the file is complete or absent.
fn write_beside<R: Files>(
    rt: &R,
    path: &str,
    mode: Option<u32>,
    mut part: Part,
    bytes: &[u8],
) -> io::Result<()> {
    let result = fill_part(rt, path, mode, &mut part, bytes);
    if result.is_err() {
        let _ = fs::remove_file(rt, part.name.as_str());
    }
    result
}

/// Writes bytes directly to the file, device or pipe with the name `path`. A file is created, or truncated first.
fn write_there<R: Files<File = File>>(rt: &R, path: &str, bytes: &[u8]) -> io::Result<()> {
    let mut file = fs::create(rt, path)?;
    let result = fill(&mut file, bytes);
    if result.is_err() {
        // An incomplete image is truncated, so that no one takes it for a complete image.
        let _ = file.set_len(0);
    }
    result
}

/// Writes bytes to a temporary file that then replaces the named file. If the name is not that of a regular file, or no temporary file
/// can be made, writes directly to the name.
fn write_all<R: Files<File = File> + AllocGlobal>(
    rt: &R,
    path: &str,
    bytes: &[u8],
) -> Result<io::Result<()>, AllocError> {
    if is_too_long(rt, path, bytes.len()) {
        return Ok(Err(io::Error::from(io::ErrorKind::FileTooLarge)));
    }
    let mode = match place_of(rt, path) {
        Place::Free => None,
        Place::Taken(mode) => Some(mode),
        Place::Kept => return Ok(write_there(rt, path, bytes)),
    };
    match create_beside(rt, path)? {
        Some(part) => Ok(write_beside(rt, path, mode, part, bytes)),
        None => Ok(write_there(rt, path, bytes)),
    }
}

/// Writes an image, or the report of a run, to its file. If the result is `Done`, then a regular or new file contains all of the bytes.
/// After any other result, the file has its former contents, if files can be created in its directory. An existing file keeps its
/// permissions.
pub fn write_file<R: Files<File = File> + AllocGlobal + Eprint>(
    rt: &R,
    path: &str,
    bytes: &[u8],
) -> Answer {
    // The output file is closed before anything is printed: if standard error is closed, then its descriptor number may
    // have become that of the output file.
    match write_all(rt, path, bytes) {
        Ok(Ok(())) => Answer::Done,
        Ok(Err(error)) => report_write_failure(rt, path, &error),
        Err(_) => Answer::NoMemory,
    }
}
