// System calls that are retried if a signal interrupts them.
ghost use Rattle.std.specs.Prelude.{◌≤◌, length, IfOk};

use station_core::Failed;
use std::io::{ErrorKind, Read, Write};

/// How often a call is retried if a signal interrupts it every time.
pub const TRIES: u32 = 1000;

/// Reads some bytes into the start of the buffer; none at the end.
pub fn read_patiently<F: Read>(file: &mut F, buf: &mut [u8]) -> Result<usize, Failed>
    ensures { IfOk result (λ n. n ≤ length buf.new) }
{
    for _ in 0..TRIES {
        match file.read(buf) {
            Ok(count) => return Ok(count),
            Err(error) if error.kind() == ErrorKind::Interrupted => {}
            Err(_) => return Err(Failed),
        }
    }
    Err(Failed)
}

// Writes some bytes from the start.
fn write_patiently<W: Write>(writer: &mut W, bytes: &[u8]) -> Result<usize, Failed>
    ensures { IfOk result (λ n. n ≤ length bytes.now) }
{
    for _ in 0..TRIES {
        match writer.write(bytes) {
            Ok(count) => return Ok(count),
            Err(error) if error.kind() == ErrorKind::Interrupted => {}
            Err(_) => return Err(Failed),
        }
    }
    Err(Failed)
}

/// Writes all the bytes, or fails. A write that takes nothing is a failure.
pub fn write_whole<W: Write>(writer: &mut W, bytes: &[u8]) -> Result<(), Failed> {
    let mut written = 0;
    while written < bytes.len() {
        match write_patiently(writer, &bytes[written..])? {
            0 => return Err(Failed),
            count => written += count,
        }
    }
    Ok(())
}
