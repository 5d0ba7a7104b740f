// The parities of the input bits of a symbol.
ghost use Rattle.std.specs.Prelude.{◌≡◌, ◌<◌, ◌≤◌, ℕ, Bool, List, IfOk, length, drop, take, ◌++◌, ◌+◌, ◌*◌, ◌/◌, ◌%◌};
ghost use Rattle.bit_pack.specs.Queue.{bits_of_bytes};
ghost use Rattle.puncture.specs.SentBits.{bits_from};
ghost use Rattle.spec_words.specs.Bits.{bit, is_set, xor};
ghost use Rattle.inner_chain.specs.Tables.{AreParities, AreRows, IsEncoded, row_of};

use bit_pack::WaitBuf;
use conv_code::Encoder;
use std::alloc::{AllocError, Global};

// Bit `place` of a number, bit 0 being the lowest.
fn bit_of(number: u16, place: u8) -> bool
    requires { place < 10 }
    ensures { result ≡ is_set number place }
{
    (number >> place) & 1 == 1
}

// X and Y of a step, of whose seven inputs the newest is bit `place`.
fn taps(inputs: u16, place: u8) -> (bool, bool)
    requires { place < 4 }
    ensures x { result.0 ≡ xor (is_set inputs place) (xor (is_set inputs (place + 1))
        (xor (is_set inputs (place + 2)) (xor (is_set inputs (place + 3)) (is_set inputs (place + 6))))) }
    ensures y { result.1 ≡ xor (is_set inputs place) (xor (is_set inputs (place + 2))
        (xor (is_set inputs (place + 3)) (xor (is_set inputs (place + 5)) (is_set inputs (place + 6))))) }
{
    let [newest, third] = [bit_of(inputs, place), bit_of(inputs, place + 2)];
    let [fourth, oldest] = [bit_of(inputs, place + 3), bit_of(inputs, place + 6)];
    let x = newest ^ (bit_of(inputs, place + 1) ^ (third ^ (fourth ^ oldest)));
    let y = newest ^ (third ^ (fourth ^ (bit_of(inputs, place + 5) ^ oldest)));
    (x, y)
}

// X and Y of the four steps whose inputs are the lowest ten bits of a number, the oldest the most significant.
fn row(inputs: u16) -> [bool; 8]
    ensures { result ≡ row_of inputs }
{
    let first = taps(inputs, 3);
    let second = taps(inputs, 2);
    let third = taps(inputs, 1);
    let fourth = taps(inputs, 0);
    [
        first.0, first.1, second.0, second.1, third.0, third.1, fourth.0, fourth.1,
    ]
}

// The rows of all numbers of ten bits.
pub(crate) fn rows(alloc: Global) -> Result<Vec<[bool; 8]>, AllocError>
    ensures { IfOk result (λ list. AreRows list.items 1024) }
{
    let mut list = Vec::with_capacity(alloc, 1024)?;
    for number in 0..1024u16 {
        list.push(row(number))?;
    }
    Ok(list)
}

// Writes X and Y of four steps.
fn write_four(row: &[bool; 8], to: &mut [bool], at: usize)
    requires room { at + 8 ≤ length to.old }
    ensures here { (i : ℕ) → i < 8 → bit to.new (at + i) ≡ bit row.now i }
    ensures before { (k : ℕ) → k < at → bit to.new k ≡ bit to.old k }
{
    let row = *row;
    to[at..at + 8].copy_from_slice(&row);
}

// Writes X and Y of the eight steps whose inputs are the lowest 14 bits of a number.
fn write_eight(rows: &[[bool; 8]], inputs: u16, to: &mut [bool], at: usize)
    requires rows { AreRows rows.now 1024 }
    requires room { at + 16 ≤ length to.old }
    ensures first { (i : ℕ) → i < 8 → bit to.new (at + i) ≡ bit (row_of (inputs / 16 % 1024)) i }
    ensures second { (i : ℕ) → i < 8 → bit to.new (at + 8 + i) ≡ bit (row_of (inputs % 1024)) i }
    ensures before { (k : ℕ) → k < at → bit to.new k ≡ bit to.old k }
{
    write_four(&rows[(inputs / 16 % 1024) as usize], to, at);
    write_four(&rows[(inputs % 1024) as usize], to, at + 8);
}

// Writes the parities of the bits of bytes after those of the `done` steps before.
fn encode_bytes(
    rows: &[[bool; 8]],
    bytes: &[u8],
    encoder: &mut Encoder,
    to: &mut [bool],
    first: usize,
    done: usize,
)
    requires rows { AreRows rows.now 1024 }
    requires room { 2 * (first + done + 8 * length bytes.now) ≤ length to.old }
    ensures goes { (w e x rest : List Bool) (n : ℕ) → done + 8 * length bytes.now ≤ n
        → IsEncoded w e x first n done (bits_of_bytes bytes.now ++ rest) encoder.old to.old
        → IsEncoded w e x first n (done + 8 * length bytes.now) rest encoder.new to.new }
{
    for index in 0..bytes.len() {
        let inputs = encoder.push_byte(bytes[index]);
        write_eight(rows, inputs, to, 2 * (first + done + 8 * index));
    }
}

// Takes as many bits as a part of bytes has, and writes their parities after those of the `done` steps before.
fn encode_part(
    rows: &[[bool; 8]],
    waiting: &mut WaitBuf,
    encoder: &mut Encoder,
    part: &mut [u8],
    to: &mut [bool],
    first: usize,
    done: usize,
)
    requires rows { AreRows rows.now 1024 }
    requires enough { 8 * length part.old ≤ length waiting.old }
    requires room { 2 * (first + done + 8 * length part.old) ≤ length to.old }
    ensures goes { (w e x : List Bool) (n : ℕ) → done + 8 * length part.old ≤ n
        → IsEncoded w e x first n done waiting.old encoder.old to.old
        → IsEncoded w e x first n (done + 8 * length part.old) waiting.new encoder.new to.new }
{
    waiting.take_bytes(part);
    encode_bytes(rows, part, encoder, to, first, done);
}

// Takes the bits of `number` bytes, at most 64, and writes their parities after those of the `done` steps before.
fn encode_chunk(
    rows: &[[bool; 8]],
    waiting: &mut WaitBuf,
    encoder: &mut Encoder,
    to: &mut [bool],
    first: usize,
    done: usize,
    number: usize,
)
    requires rows { AreRows rows.now 1024 }
    requires few { number ≤ 64 }
    requires enough { 8 * number ≤ length waiting.old }
    requires room { 2 * (first + done + 8 * number) ≤ length to.old }
    ensures goes { (w e x : List Bool) (n : ℕ) → done + 8 * number ≤ n
        → IsEncoded w e x first n done waiting.old encoder.old to.old
        → IsEncoded w e x first n (done + 8 * number) waiting.new encoder.new to.new }
{
    let mut bytes = [0; 64];
    encode_part(
        rows,
        waiting,
        encoder,
        &mut bytes[..number],
        to,
        first,
        done,
    );
}

// Takes a bit, and writes its parities after those of the `done` steps before.
fn encode_bit(
    waiting: &mut WaitBuf,
    encoder: &mut Encoder,
    to: &mut [bool],
    first: usize,
    done: usize,
)
    requires enough { 1 ≤ length waiting.old }
    requires room { 2 * (first + done + 1) ≤ length to.old }
    ensures goes { (w e x : List Bool) (n : ℕ) → done + 1 ≤ n
        → IsEncoded w e x first n done waiting.old encoder.old to.old
        → IsEncoded w e x first n (done + 1) waiting.new encoder.new to.new }
{
    let (x, y) = encoder.step(waiting.take_bit().unwrap());
    to[2 * (first + done)] = x;
    to[2 * (first + done) + 1] = y;
}

// Takes `count` bits, and writes their parities after those of the `first` steps before.
pub(crate) fn encode(
    rows: &[[bool; 8]],
    waiting: &mut WaitBuf,
    encoder: &mut Encoder,
    to: &mut [bool],
    first: usize,
    count: usize,
)
    requires rows { AreRows rows.now 1024 }
    requires enough { count ≤ length waiting.old }
    requires room { 2 * (first + count) ≤ length to.old }
    ensures taken { waiting.new ≡ drop count waiting.old }
    ensures register { (path : ℕ → Bool) → encoder.old ≡ bits_from path 0 6 → take count waiting.old
        ≡ bits_from path 6 count → encoder.new ≡ bits_from path count 6 }
    ensures parities { (path : ℕ → Bool) → encoder.old ≡ bits_from path 0 6 → take count waiting.old
        ≡ bits_from path 6 count → AreParities path first count to.new }
    ensures before { (k : ℕ) → k < 2 * first → bit to.new k ≡ bit to.old k }
    ensures size { length encoder.old ≡ 6 → length encoder.new ≡ 6 }
{
    let mut done = 0;
    while done < count {
        if count - done >= 8 {
            let number = ((count - done) / 8).min(64);
            encode_chunk(rows, waiting, encoder, to, first, done, number);
            done += 8 * number;
        } else {
            encode_bit(waiting, encoder, to, first, done);
            done += 1;
        }
    }
}
