// Buffers between the calls of a command and system calls.
ghost use Rattle.std.specs.Prelude.{◌≤◌};
ghost use Rattle.station_files.specs.Room.{room_of};

use crate::patience::read_patiently;
use station_core::Failed;
use std::io::Read;

/// Pending bytes, in memory from the caller. Without memory there are none.
#[derive(Drop)]
pub struct Buffer {
    memory: Option<Vec<u8>>,
    // the pending bytes: from `start` to `end`
    start: usize,
    end: usize,
    ghost in_order: { start ≤ end },
    ghost within: { end ≤ room_of memory },
}

impl Buffer {
    ghost use Rattle.std.specs.Prelude.{◌≡◌, ◌≤◌, ◌↔◌, ◌-◌, length, true};
    ghost use Rattle.station_files.specs.Waiting.{IsEmpty};

    /// A buffer with this memory, or with none.
    pub fn new(memory: Option<Vec<u8>>) -> Buffer
        ensures { IsEmpty result }
    {
        Buffer {
            memory,
            start: 0,
            end: 0,
        }
    }

    /// Whether no byte is pending.
    pub fn is_empty(&self) -> bool
        ensures { (result ≡ true) ↔ IsEmpty self.now }
    {
        self.start == self.end
    }

    /// The most bytes that can be pending.
    pub fn room(&self) -> usize
        ensures { result ≡ room_of self.now.memory }
    {
        match &self.memory {
            Some(memory) => memory.len(),
            None => 0,
        }
    }

    /// The pending bytes.
    pub fn waiting(&self) -> &[u8]
        ensures { length result.now ≡ self.now.end - self.now.start }
    {
        match &self.memory {
            Some(memory) => &memory[self.start..self.end],
            None => &[],
        }
    }

    /// Drops the pending bytes.
    pub fn clear(&mut self)
        ensures empty { IsEmpty self.new }
        ensures front { self.new.start ≡ 0 }
    {
        self.start = 0;
        self.end = 0;
    }

    /// Moves bytes from the start of the pending ones into `buf`, and returns their number.
    pub fn hand_out(&mut self, buf: &mut [u8]) -> usize
        ensures { result ≤ length buf.new }
    {
        let waiting = self.waiting();
        let count = buf.len().min(waiting.len());
        buf[..count].copy_from_slice(&waiting[..count]);
        self.start += count;
        count
    }

    /// Appends the bytes to the pending ones, if all of them fit.
    pub fn gather(&mut self, bytes: &[u8]) -> bool {
        let Some(memory) = &mut self.memory else {
            return false;
        };
        if bytes.len() > memory.len() - self.end {
            return false;
        }
        let end = self.end + bytes.len();
        memory[self.end..end].copy_from_slice(bytes);
        self.end = end;
        true
    }

    /// Reads some bytes of the file, replacing the pending ones; none at its end.
    pub fn fill<F: Read>(&mut self, file: &mut F) -> Result<(), Failed> {
        self.clear();
        let Some(memory) = &mut self.memory else {
            return Err(Failed);
        };
        self.end = read_patiently(file, memory)?;
        Ok(())
    }
}
