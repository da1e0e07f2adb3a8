// Files that the program's arguments name. Argument 0 is the first one of the program's own.
ghost use Rattle.std.specs.Prelude.{IfOk, IfSome};
ghost use Rattle.book_console.specs.Inputs.{IsFrontOf, IsPrefixLen};

use super::console::Console;
use super::paths::as_text;
use super::words::fail;
use std::fs::File;
use std::io;
use std::io::Read;

// Whether a further read of an open file passes: a directory can be opened, and not be read. Cost: one read.
fn check_readable(file: &mut File) -> io::Result<()> {
    let mut one = [0u8; 1];
    file.read(&mut one)?;
    Ok(())
}

// Reads the file to the front of `buffer`, until that is full, the file ends or a read fails, and answers how many bytes it has put there.
// Cost: one pass over the file, as far as it is read.
pub fn read_full(file: &mut impl Read, buffer: &mut [u8]) -> usize
    ensures { IsPrefixLen result buffer.new }
{
    let mut done: usize = 0;
    // kept: std's `read_exact` says nothing of how many bytes came before the end or an error, which the clause `IsPrefixLen` tells
    while done < buffer.len() {
        match file.read(&mut buffer[done..]) {
            Ok(0) | Err(_) => break,
            Ok(n) => done += n,
        }
    }
    done
}

// Reads the file of this name to the front of `buffer`, as far as it has room, and answers its bytes there. Where nothing was read, a further
// read tells whether the file is empty or cannot be read. Cost: one pass over the file, as far as it is read.
pub fn read_named<'a>(console: &Console, path: &[u8], buffer: &'a mut [u8]) -> io::Result<&'a [u8]>
    ensures { IfOk result (IsFrontOf buffer.entry) }
{
    let path = as_text(path)?;
    let mut file = File::open(&console.rt, path)?;
    let n = read_full(&mut file, buffer);
    if n == 0 {
        check_readable(&mut file)?;
    }
    Ok(&buffer[..n])
}

// Reads the file of this name to the front of `buffer`, as far as it has room, and answers its bytes there; nothing where it could not be
// read, and then it was told why. Cost: one pass over the file, as far as it is read.
fn load_path<'a>(console: &Console, path: &[u8], buffer: &'a mut [u8]) -> Option<&'a [u8]>
    ensures { IfSome result (IsFrontOf buffer.entry) }
{
    match read_named(console, path, buffer) {
        Ok(bytes) => Some(bytes),
        Err(error) => {
            fail(console, path, &error);
            None
        }
    }
}

// Reads the file that an argument names to the front of `buffer`, as far as it has room, and answers its bytes there; nothing where it could
// not be read, and then it was told why. Cost: one pass over the file, as far as it is read.
pub fn load<'a>(console: &Console, argument: usize, buffer: &'a mut [u8]) -> Option<&'a [u8]>
    ensures { IfSome result (IsFrontOf buffer.entry) }
{
    let mut path = [0u8; 4096];
    match console.argument(argument, &mut path) {
        Ok(path) => load_path(console, path, buffer),
        Err(error) => {
            fail(console, b"file name", &error);
            None
        }
    }
}
