// Twelve delay lines.
ghost use Rattle.std.specs.Prelude.{◌≡◌, ◌<◌, ◌+◌, ◌*◌, ◌%◌, ℕ, List, [], ◌∷◌, ◌++◌, length, map, replicate, IfOk};
ghost use Rattle.circular_buffer.specs.Buffer.{buffer};
ghost use Rattle.forney.specs.Values.{stream_of};
ghost use Rattle.forney.specs.Delays.{StandsFor, branched_at, delays};

use circular_buffer::HeapCircularBuffer;
use std::alloc::{AllocError, Global};

// A line full of zeros.
fn full_line(alloc: Global, length: usize) -> Result<HeapCircularBuffer<u8>, AllocError>
    ensures { IfOk result (λ b. b ≡ buffer (replicate length 0) length) }
{
    let mut line = HeapCircularBuffer::with_capacity(alloc, length)?;
    for _ in 0..length {
        line.push_back(0);
    }
    Ok(line)
}

// The branch of the byte after.
fn next_branch(branch: usize) -> usize
    requires { branch < 12 }
    ensures { result ≡ (branch + 1) % 12 }
{
    if branch == 11 { 0 } else { branch + 1 }
}

/// Twelve delay lines, which take bytes in turn.
#[derive(Drop)]
pub struct Lines {
    lines: Vec<HeapCircularBuffer<u8>>,
    next: usize,
    ghost twelve: { length lines.items ≡ 12 },
    ghost within: { next < 12 },
}

// The lines of zeros of these lengths.
fn full_lines(
    alloc: Global,
    lengths: &[usize; 12],
) -> Result<Vec<HeapCircularBuffer<u8>>, AllocError>
    ensures { IfOk result (λ v. v.items ≡ map (λ n. buffer (replicate n 0) n) lengths.now) }
{
    let mut lines = Vec::with_capacity(alloc, 12)?;
    for length in lengths {
        lines.push(full_line(alloc, *length)?)?;
    }
    Ok(lines)
}

impl Lines {
    /// Lines of these lengths, full of zeros.
    pub fn new(alloc: Global, lengths: &[usize; 12]) -> Result<Lines, AllocError>
        ensures { IfOk result (λ l. (l.lines.items ≡ map (λ n. buffer (replicate n 0) n) lengths.now) × (l.next ≡ 0)) }
    {
        Ok(Lines {
            lines: full_lines(alloc, lengths)?,
            next: 0,
        })
    }

    /// Hands a byte to the next line, and takes out what comes from it.
    pub fn step(&mut self, byte: u8) -> u8
        ensures given { (delay : ℕ → ℕ) (bytes : List ℕ) → StandsFor delay (delays self.old.lines.items self.old.next)
            bytes → result ≡ branched_at delay (stream_of (bytes ++ byte ∷ [])) (length bytes) }
        ensures stands { (delay : ℕ → ℕ) (bytes : List ℕ) → StandsFor delay (delays self.old.lines.items self.old.next)
            bytes → StandsFor delay (delays self.new.lines.items self.new.next) (bytes ++ byte ∷ []) }
    {
        let out = self.lines[self.next].push_back(byte).unwrap_or(byte);
        self.next = next_branch(self.next);
        out
    }
}
