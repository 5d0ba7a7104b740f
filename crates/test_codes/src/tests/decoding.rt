// Runs of a decoder, and of the definition by exhaustive search.
ghost use Rattle.std.specs.Prelude.{◌≡◌, ◌+◌, ◌*◌, ◌<◌, ◌≤◌, ◌^◌, length, false, IfOk};

use acs_plain::Acs;
use bit_pack::WaitBuf;
use code_paths::{CostPair, least_path, least_path_to};
use inner_decoder::{Branch, Decoder, StartState};
use std::alloc::{AllocError, Global};
use std::process::Abort;
use survivor_ring::Survivors;

/// The cost pairs in a string of digits, four digits a pair.
pub fn pairs_of(alloc: Global, digits: &str) -> Result<Vec<CostPair>, AllocError> {
    let bytes = digits.as_bytes();
    let mut pairs = Vec::new(alloc);
    for k in 0..bytes.len() / 4 {
        pairs.push(CostPair {
            x0: (bytes[4 * k] & 15) as u16,
            x1: (bytes[4 * k + 1] & 15) as u16,
            y0: (bytes[4 * k + 2] & 15) as u16,
            y1: (bytes[4 * k + 3] & 15) as u16,
        })?;
    }
    Ok(pairs)
}

/// The letter for a number of bits.
fn letter(number: usize) -> char {
    if number < 26 {
        (b'a' + number as u8) as char
    } else {
        '?'
    }
}

fn bit_letter(bit: bool) -> char {
    if bit { '1' } else { '0' }
}

/// The output of a decoder for a list of costs.
pub fn decoded<A: Acs, V: Survivors<L>, const L: usize>(
    alloc: Global,
    start: StartState,
    costs: &[CostPair],
) -> Result<String, AllocError>
    requires some { 0 < L }
    requires few { L ≤ 2048 }
    requires short { length costs.now ≤ 1000 }
{
    let mut decoder: Decoder<A, V, L> = Decoder::new(alloc, start)?;
    let mut to = WaitBuf::new();
    let mut text = String::new(alloc);
    for k in 0..costs.len() {
        if decoder.step(costs[k], &mut to).is_some() {
            text.push('!')?;
        }
        decoder.give(&mut to);
        text.push(letter(to.waiting()))?;
    }
    decoder.finish(&mut to);
    text.push('=')?;
    for _k in 0..1000u32 {
        if let Some(bit) = to.take_bit() {
            text.push(bit_letter(bit))?;
        }
    }
    Ok(text)
}

/// A register as the six bits of a state, oldest first.
fn register_of(state: u8) -> [bool; 6] {
    let mut bits = [false; 6];
    for k in 0..6u8 {
        bits[k as usize] = (state >> k) & 1 == 1;
    }
    bits
}

/// The number of bits after the register that the least paths to all ends share.
fn shared(start: Option<[bool; 6]>, costs: &[CostPair]) -> usize
    requires few { length costs.now ≤ 10 }
{
    let len = costs.len() + 6;
    let mut first = [false; 16];
    let mut path = [false; 16];
    let mut number = costs.len();
    let mut any = false;
    for state in 0..64u8 {
        if least_path_to(start, register_of(state), costs, &mut path[..len]) {
            if !any {
                first = path;
                any = true;
            }
            for k in 0..costs.len() {
                if k < number && path[k + 6] != first[k + 6] {
                    number = k;
                }
            }
        }
    }
    number
}

/// Appends bits to a text.
fn push_bits(text: &mut String, bits: &[bool]) -> Result<(), AllocError> {
    for bit in bits {
        text.push(bit_letter(*bit))?;
    }
    Ok(())
}

/// The last six bits of a path of `steps` steps.
fn end_of(path: &[bool; 16], steps: usize) -> [bool; 6]
    requires { steps ≤ 10 }
{
    let mut end = [false; 6];
    for k in 0..6usize {
        end[k] = path[steps + k];
    }
    end
}

/// The output of the definition for a list of at most ten costs.
pub fn defined(
    alloc: Global,
    start: StartState,
    most: usize,
    costs: &[CostPair],
) -> Result<String, AllocError>
    requires few { length costs.now ≤ 10 }
{
    let mut from = 0usize;
    let mut register = match start {
        StartState::Zero => Some([false; 6]),
        StartState::Any => None,
    };
    let mut given = String::new(alloc);
    let mut text = String::new(alloc);
    let mut path = [false; 16];
    for t in 0..costs.len() {
        if from <= t {
            let part = &costs[from..t + 1];
            let steps = part.len();
            let mut number = shared(register, part);
            if steps > number && steps - number > most {
                least_path(register, part, &mut path[..steps + 6]);
                push_bits(&mut given, &path[6..steps + 6])?;
                register = Some(end_of(&path, steps));
                from = t + 1;
                number = 0;
                text.push('!')?;
            }
            text.push(letter(given.len().saturating_add(number)))?;
        }
    }
    if from <= costs.len() {
        let part = &costs[from..];
        let steps = part.len();
        least_path(register, part, &mut path[..steps + 6]);
        push_bits(&mut given, &path[6..steps + 6])?;
    }
    text.push('=')?;
    text.push_str(given.as_str())?;
    Ok(text)
}

/// The costs of a QPSK cell with real part 0: nothing is known of X, and Y is 0.
const UNKNOWN: CostPair = CostPair {
    x0: 511,
    x1: 511,
    y0: 0,
    y1: 2047,
};

/// Loads a pair `count` times.
fn load<A: Acs, V: Survivors<2048>>(branch: &mut Branch<A, V>, pair: CostPair, count: u32)
    requires going { branch.old.decoder.ended ≡ false }
    requires room { length branch.old.loaded + count ≤ branch.old.most }
    ensures loaded { length branch.new.loaded ≡ length branch.old.loaded + count }
    ensures decoder { branch.new.decoder ≡ branch.old.decoder }
    ensures most { branch.new.most ≡ branch.old.most }
    ensures wait { branch.new.wait ≡ branch.old.wait }
{
    for _k in 0..count {
        branch.load(pair);
    }
}

/// Takes the whole pending bytes, at most 400, and counts the ones in them.
fn ones_taken<A: Acs, V: Survivors<2048>>(branch: &mut Branch<A, V>, before: u32) -> u32
    ensures decoder { branch.new.decoder ≡ branch.old.decoder }
    ensures loaded { branch.new.loaded ≡ branch.old.loaded }
    ensures most { branch.new.most ≡ branch.old.most }
{
    let mut ones = before;
    for _k in 0..400u32 {
        if let Some(byte) = branch.take_byte() {
            ones = ones.saturating_add(byte.count_ones());
        }
    }
    ones
}

/// The output of a branch for two symbols of 1,512 steps whose 64 paths never agree: the number of reports of each and
/// the step of the last, the bits pending after each symbol and, with all whole bytes taken in between, at the end, and
/// the number of ones.
pub fn unmerged<A: Acs, V: Survivors<2048>>(
    rt: &impl Abort,
    alloc: Global,
) -> Result<([usize; 2], u64, [u32; 3], u32), AllocError> {
    let mut branch: Branch<A, V> = Branch::new(alloc, StartState::Any, 1512)?;
    let mut reports = [0usize; 2];
    let mut last = 0u64;
    let mut waiting = [0u32; 3];
    let mut ones = 0u32;
    for k in 0..2usize {
        load(&mut branch, UNKNOWN, 1512);
        branch.run_symbol();
        reports[k] = branch.events().len();
        for report in branch.events() {
            last = report.at;
        }
        waiting[k] = branch.waiting();
        ones = ones_taken(&mut branch, ones);
        assert!(rt; branch.waiting() < 8);
    }
    branch.finish();
    waiting[2] = branch.waiting();
    ones = ones_taken(&mut branch, ones);
    assert!(rt; branch.ended());
    Ok((reports, last, waiting, ones))
}

/// The outcome of a stream of 6,000 costs.
#[derive(Clone, Copy, Debug, Drop, PartialEq, Eq)]
pub struct Outcome {
    /// The number of reports.
    pub reports: u32,
    /// The step of the last report.
    pub last: u64,
    /// The sum of all bytes, each times 31 for every byte after it, modulo 2^64.
    pub sum: u64,
}

/// A step of a register for random numbers.
fn next(x: u64) -> u64 {
    let y = x ^ x << 13;
    let z = y ^ y >> 7;
    z ^ z << 17
}

/// The costs of a step: random ones, or those of a step with unknown X and Y being 0.
fn costs_at(step: u32, x: u64) -> CostPair {
    if step >= 1400 && step < 4300 {
        UNKNOWN
    } else {
        CostPair {
            x0: (x & 4095) as u16,
            x1: (x >> 12 & 4095) as u16,
            y0: (x >> 24 & 4095) as u16,
            y1: (x >> 36 & 4095) as u16,
        }
    }
}

/// The costs of 6,000 steps: random ones up to the greatest, then many for which the 64 paths never agree, and then
/// random ones again.
pub fn long_stream(alloc: Global) -> Result<Vec<CostPair>, AllocError>
    ensures { IfOk result (λ v. length v.items ≡ 6000) }
{
    let mut pairs = Vec::new(alloc);
    let mut x = 1234567u64;
    for k in 0..6000u32 {
        x = next(x);
        pairs.push(costs_at(k, x))?;
    }
    Ok(pairs)
}

/// The bytes of a decoder, added to a sum of bytes.
fn sum_of(to: &mut WaitBuf) -> u64 {
    let mut sum = 0u64;
    for _k in 0..750u32 {
        if let Some(byte) = to.take_byte() {
            sum = sum.wrapping_mul(31).wrapping_add(byte as u64);
        }
    }
    sum
}

/// The decoder's output for the costs, step by step.
pub fn by_steps<A: Acs, V: Survivors<2048>>(
    alloc: Global,
    start: StartState,
    costs: &[CostPair],
) -> Result<Outcome, AllocError>
    requires { length costs.now ≤ 6000 }
{
    let mut decoder: Decoder<A, V, 2048> = Decoder::new(alloc, start)?;
    let mut to = WaitBuf::new();
    let mut reports = 0u32;
    let mut last = 0u64;
    for k in 0..costs.len() {
        if let Some(report) = decoder.step(costs[k], &mut to) {
            reports = reports.saturating_add(1);
            last = report.at;
        }
    }
    decoder.finish(&mut to);
    Ok(Outcome {
        reports,
        last,
        sum: sum_of(&mut to),
    })
}

/// A sum of bytes with more of them.
fn sum_onto(before: u64, bytes: &[u8]) -> u64 {
    let mut sum = before;
    for byte in bytes {
        sum = sum.wrapping_mul(31).wrapping_add(*byte as u64);
    }
    sum
}

/// Takes seven pending bytes at once, if there are as many, and adds them to a sum of bytes.
fn seven_taken<A: Acs, V: Survivors<2048>>(branch: &mut Branch<A, V>, before: u64) -> u64
    ensures decoder { branch.new.decoder ≡ branch.old.decoder }
    ensures loaded { branch.new.loaded ≡ branch.old.loaded }
    ensures most { branch.new.most ≡ branch.old.most }
{
    if branch.waiting() < 56 {
        return before;
    }
    let mut bytes = [0u8; 7];
    branch.take_bytes(&mut bytes);
    sum_onto(before, &bytes)
}

/// Takes the whole pending bytes, the first seven at once and at most 1,000 others, and adds them to a sum of bytes.
fn bytes_taken<A: Acs, V: Survivors<2048>>(branch: &mut Branch<A, V>, before: u64) -> u64
    ensures decoder { branch.new.decoder ≡ branch.old.decoder }
    ensures loaded { branch.new.loaded ≡ branch.old.loaded }
    ensures most { branch.new.most ≡ branch.old.most }
{
    let mut sum = seven_taken(branch, before);
    for _k in 0..1000u32 {
        if let Some(byte) = branch.take_byte() {
            sum = sum.wrapping_mul(31).wrapping_add(byte as u64);
        }
    }
    sum
}

/// The output of a branch for the costs, in four symbols of 1,500 steps.
pub fn by_symbols<A: Acs, V: Survivors<2048>>(
    rt: &impl Abort,
    alloc: Global,
    start: StartState,
    costs: &[CostPair],
) -> Result<Outcome, AllocError>
    requires { length costs.now ≡ 6000 }
{
    let mut branch: Branch<A, V> = Branch::new(alloc, start, 1500)?;
    let mut reports = 0u32;
    let mut last = 0u64;
    let mut sum = 0u64;
    for k in 0..4usize {
        assert!(rt; branch.waiting() < 8);
        branch.load_all(&costs[1500 * k..1500 * k + 1500]);
        branch.run_symbol();
        for report in branch.events() {
            reports = reports.saturating_add(1);
            last = report.at;
        }
        sum = bytes_taken(&mut branch, sum);
    }
    assert!(rt; branch.waiting() < 8);
    branch.finish();
    sum = bytes_taken(&mut branch, sum);
    Ok(Outcome { reports, last, sum })
}
