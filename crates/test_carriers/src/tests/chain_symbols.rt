// The labels of symbols of given bits against a plain model of the standard.
ghost use Rattle.std.specs.Prelude.{◌≡◌};
ghost use Rattle.mode_set.specs.declared.modes.Mode.TheVariants.{M2k};

use super::parameters::two_streams;
use super::sending::{drawn_bytes, labels_of};
use inner_chain::InnerTx;
use mode_set::{Carriers, Hierarchy, Mode, Mode2k, Mode8k, Rate, Settings, Shape};
use std::alloc::Global;
use std::process::Abort;
use std::rt::HostRuntime;
use std::test::Fail;
use test_tools::flat;

fn sum_of(labels: &[u8]) -> u32 {
    labels.iter().fold(
        0u32,
        |sum, label| ((sum as u64 * 31 + *label as u64) % 65521) as u32,
    )
}

// The number of labels of the next two symbols of random bits, and their sums.
fn sums_of<M: Carriers>(
    rt: &impl Abort,
    alloc: Global,
    settings: &Settings,
    tx: &mut InnerTx<M>,
) -> [(usize, u32); 2]
    requires { tx.old.settings.mode ≡ settings.now.mode }
    ensures { tx.new.settings.mode ≡ settings.now.mode }
{
    let (hp, lp) = (drawn_bytes(rt, alloc, 1), drawn_bytes(rt, alloc, 2));
    let symbols = labels_of(rt, alloc, settings, tx, &[false, true], (&hp, &lp));
    let mut sums = [(0, 0); 2];
    for (sum, labels) in sums.iter_mut().zip(&symbols) {
        *sum = (labels.len(), sum_of(labels));
    }
    sums
}

// The same with a coder made for these settings, whose registers are all zeros.
fn own_sums<M: Carriers>(rt: &impl Abort, alloc: Global, settings: &Settings) -> [(usize, u32); 2]
    requires { settings.now.mode ≡ M.MODE }
{
    let mut tx = InnerTx::<M>::new(alloc, settings).expect(rt, "memory");
    sums_of(rt, alloc, settings, &mut tx)
}

// The same after a symbol of zeros, which leaves the registers all zeros.
fn sums_behind_zeros<M: Carriers>(
    rt: &impl Abort,
    alloc: Global,
    zeros: &Settings,
    settings: &Settings,
    tx: &mut InnerTx<M>,
) -> [(usize, u32); 2]
    requires zeros { tx.old.settings.mode ≡ zeros.now.mode }
    requires settings { tx.old.settings.mode ≡ settings.now.mode }
    ensures { tx.new.settings.mode ≡ settings.now.mode }
{
    labels_of(rt, alloc, zeros, tx, &[true], (&[0; 4000], &[0; 4000]));
    sums_of(rt, alloc, settings, tx)
}

// Two of the settings below.
fn one() -> Settings
    ensures { result.mode ≡ M2k }
{
    flat(Mode::M2k, Shape::Qpsk, Rate::R1of2)
}

fn two() -> Settings
    ensures { result.mode ≡ M2k }
{
    two_streams(Shape::Qam16, Hierarchy::Alpha4, (Rate::R5of6, Rate::R3of4))
}

// Their sums by one coder whose parameters change and change back.
#[test]
fn symbols_of_changing_parameters(rt: HostRuntime) -> Result<(), Fail> {
    let alloc = rt.alloc();
    let (one, two) = (one(), two());
    let mut tx = InnerTx::<Mode2k>::new(alloc, &one)?;
    let first = sums_of(&rt, alloc, &one, &mut tx);
    let second = sums_behind_zeros(&rt, alloc, &two, &two, &mut tx);
    let third = sums_behind_zeros(&rt, alloc, &two, &one, &mut tx);
    assert!(&rt; [first, second, third] == [ONE, TWO, ONE]);
    Ok(())
}

// The sums are those of a plain model of EN 300 744, 4.3.3 and 4.3.4.
const ONE: [(usize, u32); 2] = [(1512, 8042), (1512, 60240)];

const TWO: [(usize, u32); 2] = [(1512, 51219), (1512, 20928)];

const THREE: [(usize, u32); 2] = [(6048, 39190), (6048, 48280)];

#[test]
fn symbols_of_given_bits(rt: HostRuntime) {
    let alloc = rt.alloc();
    let three = flat(Mode::M8k, Shape::Qam64, Rate::R2of3);
    assert!(&rt; own_sums::<Mode2k>(&rt, alloc, &one()) == ONE);
    assert!(&rt; own_sums::<Mode2k>(&rt, alloc, &two()) == TWO);
    assert!(&rt; own_sums::<Mode8k>(&rt, alloc, &three) == THREE);
}
