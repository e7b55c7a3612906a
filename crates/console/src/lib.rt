// Reading standard input and named files, and writing standard output, where a failure is not taken for the end of the input or for
// success: a line on standard error tells it.
#![tactic(auto)]

ghost use Rattle.std.specs.Prelude.{◌≡◌, Ok, length};
ghost use Rattle.console.specs.Within.{Within, Reads};

use std::io::Read;
use std::rt::Files;
use std::{fs, io};

// Reads until the reader ends or the buffer is full, and gives how many bytes stand at the buffer's start; else the error of the read that
// failed. The loop goes by the count, since how many bytes a read gives is known only behind it.
pub fn read_from<R: Read>(reader: &mut R, buffer: &mut [u8]) -> io::Result<usize>
    ensures within { Within result buffer.new }
    ensures bytes { Reads (R.remaining reader.old) (R.remaining reader.new) result buffer.new }
{
    let mut size = 0;
    while size < buffer.len() {
        let more = reader.read(&mut buffer[size..])?;
        if more == 0 {
            break;
        }
        size += more;
    }
    Ok(size)
}

// Reads standard input until it ends or the buffer is full; a failed read is told.
pub fn read_input(rt: &(impl io::Input + Eprint), buffer: &mut [u8]) -> io::Result<usize>
    ensures { Within result buffer.new }
{
    read_from(&mut rt.reader(), buffer).inspect_err(|_| tell(rt, "reading standard input failed\n"))
}

// Reads a file by its name until it ends or the buffer is full.
fn open_and_read<R: Files>(rt: &R, name: &str, buffer: &mut [u8]) -> io::Result<usize>
    ensures { Within result buffer.new }
{
    read_from(&mut fs::open(rt, name)?, buffer)
}

// Reads a file by its name until it ends or the buffer is full; a file that can't be opened or read is told.
pub fn read_named<R: Files + Eprint>(rt: &R, name: &str, buffer: &mut [u8]) -> io::Result<usize>
    ensures { Within result buffer.new }
{
    open_and_read(rt, name, buffer).inspect_err(|_| tell_unread(rt, name))
}

// Writes bytes to standard output, which writing no bytes can't fail; a failed write is told.
pub fn write_output(rt: &(impl Print + Eprint), bytes: &[u8]) -> io::Result<()>
    ensures { length bytes.now ≡ 0 → result ≡ Ok tt }
{
    if bytes.is_empty() {
        return Ok(());
    }
    told(rt, rt.write_all(bytes))
}

// What writing to standard output gave, as it is; a failed write is told.
pub fn told(rt: &impl Eprint, written: io::Result<()>) -> io::Result<()>
    ensures { result ≡ written }
{
    written.inspect_err(|_| tell(rt, "writing standard output failed\n"))
}

// Writes a line to standard error that says which file can't be read, where that can be written.
fn tell_unread(rt: &impl Eprint, name: &str) {
    let _ = eprintln!(rt; "reading {name} failed");
}

// Writes a line to standard error, where that can be written.
fn tell(rt: &impl Eprint, line: &str) {
    let _ = rt.eprint(line);
}
