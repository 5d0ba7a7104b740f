// Margins against independent programs.
ghost use Rattle.std.specs.Prelude.{◌<◌};

use bit_margin::{Margins, least_eight, margin_of};
use code_paths::CostPair;
use inner_decoder::StartState;
use std::alloc::{AllocError, Global};
use std::rt::HostRuntime;
use std::test::Fail;
use test_tools::next_number;

/// Six zeros, or any register.
fn register_of(start: StartState) -> Option<[bool; 6]> {
    match start {
        StartState::Zero => Some([false; 6]),
        StartState::Any => None,
    }
}

/// A random cost, 0 to 2 if it is small.
fn drawn_cost(seed: &mut u32, small: bool) -> u16
    ensures { result < 4096 }
{
    let number = next_number(seed) >> 16;
    let range = if small { 3 } else { 4096 };
    (number % range) as u16
}

/// A random pair of costs, 0 to 2 each if they are small.
fn drawn(seed: &mut u32, small: bool) -> CostPair {
    CostPair {
        x0: drawn_cost(seed, small),
        x1: drawn_cost(seed, small),
        y0: drawn_cost(seed, small),
        y1: drawn_cost(seed, small),
    }
}

/// The margins of ten pairs, by windows.
fn margins_of(
    alloc: Global,
    start: StartState,
    pairs: &[CostPair; 10],
) -> Result<Vec<u32>, AllocError> {
    let mut margins = Margins::new(alloc, start)?;
    let mut to = Vec::with_capacity(alloc, 1279)?;
    for k in 0..10usize {
        margins.push(pairs[k]);
    }
    margins.finish(&mut to);
    Ok(to)
}

/// The margins of ten pairs, by exhaustive search.
fn tried(start: StartState, pairs: &[CostPair; 10]) -> [u32; 10] {
    let mut margins = [0u32; 10];
    for step in 0..10usize {
        margins[step] = margin_of(register_of(start), pairs, step);
    }
    margins
}

/// Ten random pairs.
fn ten_drawn(small: bool) -> [CostPair; 10] {
    let mut seed = 99;
    let mut pairs = [drawn(&mut seed, small); 10];
    for k in 1..10usize {
        pairs[k] = drawn(&mut seed, small);
    }
    pairs
}

#[test]
fn one_pair(rt: HostRuntime) -> Result<(), Fail> {
    // from 000000 the step on 1 costs 5 and 7; from 000001 it costs 0
    for (start, margin) in [(StartState::Zero, 12u32), (StartState::Any, 0)] {
        let mut margins = Margins::new(rt.alloc(), start)?;
        let mut to = Vec::with_capacity(rt.alloc(), 1279)?;
        let pair = CostPair {
            x0: 0,
            x1: 5,
            y0: 0,
            y1: 7,
        };
        let settled = margins.push(pair);
        assert!(rt; !settled && !margins.full() && !margins.ended());
        margins.finish(&mut to);
        assert!(rt; margins.ended() && to.as_slice() == [margin].as_slice());
    }
    Ok(())
}

#[test]
fn all_paths_tried(rt: HostRuntime) -> Result<(), Fail> {
    // costs over the whole range, and small ones with many ties
    for small in [false, true] {
        let pairs = ten_drawn(small);
        for start in [StartState::Zero, StartState::Any] {
            let margins = margins_of(rt.alloc(), start, &pairs)?;
            assert_eq!(rt; margins.as_slice(), tried(start, &pairs).as_slice());
        }
    }
    Ok(())
}

/// A hash of numbers in order.
fn hashed(sum: u64, numbers: &[u32]) -> u64 {
    let mut sum = sum;
    for number in numbers {
        sum = sum.wrapping_mul(1000003).wrapping_add(*number as u64);
    }
    sum
}

/// The hash of the margins of random pairs.
fn hash_of_drawn(alloc: Global, start: StartState, pairs: u32) -> Result<u64, AllocError> {
    let mut margins = Margins::new(alloc, start)?;
    let mut to = Vec::with_capacity(alloc, 1279)?;
    let mut seed = 12345;
    let mut sum = 0;
    for _k in 0..pairs {
        if margins.push(drawn(&mut seed, false)) {
            margins.take(&mut to);
            sum = hashed(sum, &to);
            to.clear();
        }
    }
    margins.finish(&mut to);
    Ok(hashed(sum, &to))
}

#[test]
fn long_streams(rt: HostRuntime) -> Result<(), Fail> {
    // The results of an independent program: three whole windows and a last block; one whole window, a whole block with
    // a shorter window, and a last block; a block with a window of one step more, and a last block of one step.
    let table = [
        (StartState::Zero, 3500, 5675469197956425177),
        (StartState::Any, 3500, 17428855824337702708),
        (StartState::Zero, 2300, 16470588430129081242),
        (StartState::Any, 1025, 3676650741690303072),
    ];
    for (start, pairs, hash) in table {
        let found = hash_of_drawn(rt.alloc(), start, pairs)?;
        assert_eq!(rt; found, hash);
    }
    Ok(())
}

#[test]
fn least_margins(rt: HostRuntime) {
    // the result of sorting by margin and position: the last position is one of several with its margin
    let mut margins = [0u32; 204];
    for place in 0..204u32 {
        margins[place as usize] = (place * 37 + 11) % 30 + 3;
    }
    let mut last = [9; 204];
    last[203] = 8;
    let found = [
        least_eight(&margins),
        least_eight(&[9; 204]),
        least_eight(&last),
    ];
    let expected = [
        [7, 20, 37, 67, 97, 127, 157, 187],
        [0, 1, 2, 3, 4, 5, 6, 7],
        [0, 1, 2, 3, 4, 5, 6, 203],
    ];
    assert_eq!(rt; found, expected);
}
