// Bits that are moved from queue to queue.
ghost use Rattle.std.specs.Prelude.{◌≡◌, ◌≢◌, ◌+◌, ◌*◌, ◌≤◌, ◌++◌, length, take, drop};
ghost use Rattle.mode_set.specs.declared.modes.Stream.{Stream as AnyStream};
ghost use Rattle.inner_chain.specs.Labels.{register_of};
ghost use Rattle.measure_known_bits.specs.Passing.{Skips};

use bit_pack::{BitBuf, WaitBuf};
use inner_chain::InnerTx;
use mode_set::{Carriers, Stream};

/// The bits of four of the largest symbols, in bytes.
pub(crate) const BYTES: usize = 15876;

/// Moves a byte.
fn move_byte(from: &mut BitBuf<BYTES>, to: &mut WaitBuf)
    requires enough { 8 ≤ length from.old }
    requires room { length to.old + 8 ≤ 36864 }
    ensures left { from.new ≡ drop 8 from.old }
    ensures moved { to.new ≡ to.old ++ take 8 from.old }
{
    to.push_byte(from.take_byte().unwrap());
}

/// Moves a bit.
fn move_bit(from: &mut BitBuf<BYTES>, to: &mut WaitBuf)
    requires enough { 1 ≤ length from.old }
    requires room { length to.old + 1 ≤ 36864 }
    ensures left { from.new ≡ drop 1 from.old }
    ensures moved { to.new ≡ to.old ++ take 1 from.old }
{
    to.push_bit(from.take_bit().unwrap());
}

/// Moves `count` bytes.
fn move_bytes(from: &mut BitBuf<BYTES>, to: &mut WaitBuf, count: usize)
    requires enough { 8 * count ≤ length from.old }
    requires room { length to.old + 8 * count ≤ 36864 }
    ensures left { from.new ≡ drop (8 * count) from.old }
    ensures moved { to.new ≡ to.old ++ take (8 * count) from.old }
{
    for _k in 0..count {
        move_byte(from, to);
    }
}

/// Moves `count` bits.
fn move_single_bits(from: &mut BitBuf<BYTES>, to: &mut WaitBuf, count: usize)
    requires enough { count ≤ length from.old }
    requires room { length to.old + count ≤ 36864 }
    ensures left { from.new ≡ drop count from.old }
    ensures moved { to.new ≡ to.old ++ take count from.old }
{
    for _k in 0..count {
        move_bit(from, to);
    }
}

/// Moves `count` bits, whole bytes of them at once.
pub(crate) fn move_bits(from: &mut BitBuf<BYTES>, to: &mut WaitBuf, count: usize)
    requires enough { count ≤ length from.old }
    requires room { length to.old + count ≤ 36864 }
    ensures left { from.new ≡ drop count from.old }
    ensures moved { to.new ≡ to.old ++ take count from.old }
{
    move_bytes(from, to, count / 8);
    move_single_bits(from, to, count % 8);
}

/// Moves the encoder of a stream on by a bit.
fn skip_bit<M: Carriers>(from: &mut BitBuf<BYTES>, stream: Stream, coder: &mut InnerTx<M>)
    requires enough { 1 ≤ length from.old }
    ensures settings { coder.new.settings ≡ coder.old.settings }
    ensures skips { Skips from.old from.new (register_of coder.old stream) (register_of coder.new stream) 1 }
    ensures other { (σ : AnyStream) → σ ≢ stream → register_of coder.new σ ≡ register_of coder.old σ }
{
    coder.skip_bit(stream, from.take_bit().unwrap());
}

/// Moves the encoder of a stream on by `count` bits.
pub(crate) fn skip_bits<M: Carriers>(
    from: &mut BitBuf<BYTES>,
    stream: Stream,
    coder: &mut InnerTx<M>,
    count: usize,
)
    requires enough { count ≤ length from.old }
    ensures settings { coder.new.settings ≡ coder.old.settings }
    ensures skips { Skips from.old from.new (register_of coder.old stream) (register_of coder.new stream) count }
    ensures other { (σ : AnyStream) → σ ≢ stream → register_of coder.new σ ≡ register_of coder.old σ }
{
    for _k in 0..count {
        skip_bit(from, stream, coder);
    }
}
