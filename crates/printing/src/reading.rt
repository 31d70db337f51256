// How programs read standard input: into a buffer of a fixed size, as far as both go.
ghost use Rattle.std.specs.Prelude.{◌≤◌, length, IfOk};

use std::io;
use std::io::{ErrorKind, Read};

// What the system calls a file descriptor that is not open, its EBADF.
const NOT_OPEN: i32 = 9;

// Reads until the buffer is full or the input ends, and says how many bytes it put at the buffer's start. For `read_exact` of std an input
// that ends first is an error.
pub fn read_full(input: &mut impl Read, buffer: &mut [u8]) -> io::Result<usize>
    ensures { IfOk result (λ size. size ≤ length buffer.new) }
{
    let mut done: usize = 0;
    while done < buffer.len() {
        let size = read_some(input, &mut buffer[done..])?;
        if size == 0 {
            break;
        }
        done += size;
    }
    Ok(done)
}

// The bytes of one read, none at the end of the input. One that a signal cut short is made again.
fn read_some(input: &mut impl Read, buffer: &mut [u8]) -> io::Result<usize>
    ensures { IfOk result (λ size. size ≤ length buffer.new) }
{
    for _ in 0..u64::MAX {
        match input.read(buffer) {
            Ok(size) => return Ok(size),
            Err(error) if is_closed(&error) => return Ok(0),
            Err(error) if error.kind() != ErrorKind::Interrupted => return Err(error),
            Err(_) => {}
        }
    }
    Err(io::Error::from(ErrorKind::Interrupted))
}

// Whether a read failed because a program was started with its input closed, which counts as an empty one.
fn is_closed(error: &io::Error) -> bool {
    error.raw_os_error() == Some(NOT_OPEN)
}
