// Names of files: what a symbolic link leads to, and a name beside another. A name is UTF-8 text: the standard library opens no other. A caller
// may hand names over as bytes, which need not be text.
ghost use Rattle.std.specs.IoError.{raw_os_error};
ghost use Rattle.std.specs.Prelude.{◌≡◌, ◌≤◌, IfErr, IfOk, length};
ghost use Rattle.std.specs.declared.option.Option.TheVariants.{None};

use super::console::{Console, ENAMETOOLONG};
use arrayvec::ArrayString;
use std::fmt::Write;
use std::io::ErrorKind;
use std::{fmt, fs, io};

// The system takes names of at most so many bytes.
pub const LONGEST: usize = 4095;

// A name that the system takes.
pub type Name = ArrayString<LONGEST>;

// A path as text, where it is some and not too long to name a file. Cost: the bytes of the path.
pub fn as_text(path: &[u8]) -> io::Result<&str>
    ensures { IfOk result (λ text. text.now ≡ path.now) }
{
    if path.len() > LONGEST {
        return Err(io::Error::from_raw_os_error(ENAMETOOLONG));
    }
    str::from_utf8(path).map_err(|_| {
        io::Error::new(
            ErrorKind::InvalidFilename,
            "a file name has to be UTF-8 text",
        )
    })
}

// What a path is refused with that is longer than the system takes, as the system says it of a name; it is no error of the system, since no
// call was made. Cost: constant.
fn too_long(_: fmt::Error) -> io::Error
    ensures { raw_os_error result ≡ None }
{
    io::Error::new(ErrorKind::InvalidFilename, "File name too long")
}

// The text as the name of a file in the same folder as `path`. Cost: both.
fn beside(path: &str, text: &str) -> Result<Name, fmt::Error> {
    let mut name = Name::new();
    if let Some((folder, _)) = path.rsplit_once('/') {
        write!(name, "{folder}/")?;
    }
    name.write_str(text)?;
    Ok(name)
}

// Whether a path names a file that this process has open, as /dev/stdout does. Cost: constant.
pub fn is_open_file(path: &[u8]) -> bool {
    path.starts_with(b"/dev/std") || path.starts_with(b"/dev/fd/") || path.starts_with(b"/proc/")
}

// The path that a link of this name leads to, if it is the name of one. What a link says has to be text too: that it is none, has no memory or
// leads to a longer path than the system takes is an error that is none of the system's, and no other is answered. Cost: one call, and the
// bytes of both.
fn linked(console: &Console, path: &str) -> io::Result<Option<Name>>
    ensures { IfErr result (λ error. raw_os_error error ≡ None) }
{
    if is_open_file(path.as_bytes()) {
        return Ok(None);
    }
    match fs::read_link(&console.rt, path) {
        Ok(text) => {
            let text = text.as_str();
            if text.is_empty() {
                return Ok(None);
            }
            let folder = if text.starts_with('/') { "" } else { path };
            Ok(Some(beside(folder, text).map_err(too_long)?))
        }
        // The system refuses a name that is no link.
        Err(error) if error.raw_os_error().is_some() => Ok(None),
        Err(error) => Err(error),
    }
}

// The text as a name, or that it is too long to be one. Cost: the text.
pub(crate) fn named(text: &str) -> io::Result<Name>
    ensures { IfErr result (λ error. raw_os_error error ≡ None) }
{
    beside("", text).map_err(too_long)
}

// Follows the links of a name, which then is the path that they lead to. Links that lead from one to the next more than 40 times are left, and
// no call takes them. Where what a link says is no text, has no memory or is too long, the error of that is answered, which is none of the
// system's, and the name is that of this link. Cost: that of `linked` for each link.
pub(crate) fn follow_links(console: &Console, name: &mut Name) -> io::Result<()>
    ensures { IfErr result (λ error. raw_os_error error ≡ None) }
{
    for _ in 0..40 {
        let Some(next) = linked(console, name.as_str())? else {
            break;
        };
        *name = next;
    }
    Ok(())
}

// Puts bytes into the buffer from a place on, as many as have room, and answers the place behind them. Cost: the bytes.
fn put(bytes: &[u8], buffer: &mut [u8], at: usize) -> usize
    requires { at ≤ length buffer.old }
    ensures behind { (at ≤ result) × (result ≤ length buffer.new) }
    ensures kept { length buffer.new ≡ length buffer.old }
{
    let n = bytes.len().min(buffer.len() - at);
    buffer[at..at + n].copy_from_slice(&bytes[..n]);
    at + n
}

// Puts the path that the links of this name lead to in the place of the first n bytes, as far as it has room, and answers how long it is; a
// name that is no text, or too long to be one, names no link. Where the links cannot be followed the error is that of `follow_links`, and the
// path holds the name of that link. Cost: that of `follow_links`.
pub fn resolve(console: &Console, path: &mut [u8], n: usize) -> io::Result<usize>
    requires { n ≤ length path.old }
    ensures ok { IfOk result (λ k. k ≤ length path.new) }
    ensures err { IfErr result (λ error. raw_os_error error ≡ None) }
    ensures kept { length path.new ≡ length path.old }
{
    let Ok(text) = as_text(&path[..n]) else {
        return Ok(n);
    };
    let mut name = named(text)?;
    let followed = follow_links(console, &mut name);
    let end = put(name.as_bytes(), path, 0);
    followed?;
    Ok(end)
}

// What the name of a new file ends with: `.mlb-` and how many others were tried, 25 bytes at most. Cost: constant.
fn ending(tried: u64) -> ArrayString<32> {
    let mut text = ArrayString::<32>::new();
    let _ = write!(text, ".mlb-{tried}");
    text
}

// A name beside the path, in the same folder, with the ending for so many tried; none where it has no room. Cost: the path.
pub(crate) fn new_name(path: &str, tried: u64) -> Option<Name> {
    beside(path, ending(tried).as_str()).ok()
}

// Puts a name beside the path into `name`, in the same folder, as much of it as has room, and answers how long that is: the ending is for so
// many tried. Cost: the bytes of the path.
pub fn name_beside(path: &[u8], tried: u64, name: &mut [u8]) -> usize
    ensures within { result ≤ length name.new }
    ensures kept { length name.new ≡ length name.old }
{
    let folder = match path.iter().rposition(|byte| *byte == b'/') {
        Some(at) => &path[..at + 1],
        None => b"",
    };
    let at = put(folder, name, 0);
    put(ending(tried).as_bytes(), name, at)
}
