// A result written to the file that an argument names. What that file held is lost only when the whole result stands in its place: it is
// written to a new file beside it, which then takes its name.
use super::calls::{Status, status_of};
use super::console::{Console, EEXIST, ENAMETOOLONG};
use super::paths::{Name, as_text, follow_links, is_open_file, named, new_name};
use super::words::{fail, write_out};
use arrayvec::ArrayString;
use std::fmt::Write as _;
use std::fs::{File, OpenOptions};
use std::io::{ErrorKind, Write};
use std::{fs, io};

// What stands at a path: nothing or a regular file, which a new one can replace; something else, as a pipe or a device, which is open for
// writing; or a name of a file that this process has open.
#[derive(Drop)]
enum Target {
    Replaced,
    Opened(File),
    Named,
}

// A new file that is open for writing, and its name.
#[derive(Drop)]
struct Made {
    file: File,
    name: Name,
}

// What stands at a path, or why it cannot be written. A regular file can be flushed to its device; of a pipe, a terminal or a device for
// characters that is no call. Nothing there is changed. A pipe is waited for until it is read, and is opened once, since its reader would
// take a second opening for another text.
// Cost: a few calls.
fn target_at(console: &Console, path: &str) -> io::Result<Target> {
    if is_open_file(path.as_bytes()) {
        return Ok(Target::Named);
    }
    let file = match OpenOptions::new().append(true).open(&console.rt, path) {
        Ok(file) => file,
        Err(error) => {
            return if error.kind() == ErrorKind::NotFound {
                Ok(Target::Replaced)
            } else {
                Err(error)
            };
        }
    };
    match file.sync_all() {
        Ok(()) => Ok(Target::Replaced),
        Err(error) => {
            if error.kind() == ErrorKind::InvalidInput {
                Ok(Target::Opened(file))
            } else {
                Err(error)
            }
        }
    }
}

// Writes the bytes to the open file, which is closed then. That the close fails is not known. Cost: one pass over the bytes.
fn write_open(mut file: File, bytes: &[u8]) -> io::Result<()> {
    file.write_all(bytes)
}

// The same, where the bytes have to reach the device before the file is closed. Cost: one pass over the bytes, and the device.
fn write_new(mut file: File, bytes: &[u8]) -> io::Result<()> {
    file.write_all(bytes)?;
    file.sync_all()
}

// Makes a file of this name. Cost: one call.
fn make_named(console: &Console, name: &str) -> io::Result<File> {
    OpenOptions::new()
        .write(true)
        .create_new(true)
        .open(&console.rt, name)
}

// Makes a file beside the path. Cost: one call, and one more for each name that is taken.
fn make_beside(console: &Console, path: &str) -> io::Result<Made> {
    for tried in 0..100 {
        let Some(name) = new_name(path, tried) else {
            return Err(io::Error::from_raw_os_error(ENAMETOOLONG));
        };
        match make_named(console, name.as_str()) {
            Ok(file) => return Ok(Made { file, name }),
            Err(error) => {
                if error.kind() != ErrorKind::AlreadyExists {
                    return Err(error);
                }
            }
        }
    }
    Err(io::Error::from_raw_os_error(EEXIST))
}

// Writes the bytes to the new file, which then takes the name `path`; where that fails the file is removed.
// Cost: one pass over the bytes, and the device.
fn replace(console: &Console, path: &str, made: Made, bytes: &[u8]) -> io::Result<()> {
    let Made { file, name } = made;
    let mut done = write_new(file, bytes);
    if done.is_ok() {
        done = fs::rename(&console.rt, name.as_str(), path);
    }
    if done.is_err() {
        let _ = fs::remove_file(&console.rt, name.as_str());
    }
    done
}

// Writes the bytes straight to the open file that the path names. Cost: one pass over the bytes.
fn save_straight(console: &Console, path: &str, bytes: &[u8]) -> io::Result<()> {
    write_open(File::create(&console.rt, path)?, bytes)
}

// Writes the bytes to the file at the path: straight to one that is open, or else a file with these bytes takes the place of the one that
// stands there, new or not. Cost: one pass over the bytes.
fn save_at(console: &Console, path: &str, bytes: &[u8]) -> io::Result<()> {
    match target_at(console, path)? {
        Target::Replaced => replace(console, path, make_beside(console, path)?, bytes),
        Target::Opened(file) => write_open(file, bytes),
        Target::Named => save_straight(console, path, bytes),
    }
}

// Writes the bytes to the file that the links of this name lead to. The name is given as bytes, and answered as text.
// Cost: one pass over the bytes.
fn save_given<'a>(console: &Console, told: &'a [u8], bytes: &[u8]) -> io::Result<&'a str> {
    let name = as_text(told)?;
    let mut path = named(name)?;
    follow_links(console, &mut path)?;
    save_at(console, path.as_str(), bytes)?;
    Ok(name)
}

// Tells how many bytes were written to which file, and answers the status. Cost: the line.
fn tell_written(console: &Console, name: &str, n: usize) -> Status {
    let mut line = ArrayString::<4200>::new();
    if writeln!(line, "wrote {n} bytes to {name}").is_err() {
        return Status::Failed;
    }
    status_of(write_out(console, line.as_bytes()))
}

// Writes the bytes to the file of this name, and tells how many; or tells why it could not. Cost: one pass over the bytes.
fn save(console: &Console, told: &[u8], bytes: &[u8]) -> Status {
    match save_given(console, told, bytes) {
        Ok(name) => tell_written(console, name, bytes.len()),
        Err(error) => {
            fail(console, told, &error);
            Status::Failed
        }
    }
}

// The same of the file that an argument names, and of the first n bytes; answers the status. Cost: one pass over them.
pub fn save_front(console: &Console, argument: usize, bytes: &[u8], n: usize) -> Status {
    let mut told = [0u8; 4096];
    let told = match console.argument(argument, &mut told) {
        Ok(told) => told,
        Err(error) => {
            fail(console, b"file name", &error);
            return Status::Failed;
        }
    };
    if n > bytes.len() {
        return Status::Failed;
    }
    save(console, told, &bytes[0..n])
}
