// A branch that loads the pairs of its symbols, and one that steps through them in place.
ghost use Rattle.std.specs.Prelude.{◌≡◌, ◌≤◌, [], false, length};

use super::decoding::long_stream;
use acs_lanes::LaneAcs;
use acs_plain::{Acs, PlainAcs};
use code_paths::CostPair;
use inner_decoder::{Branch, StartState};
use std::alloc::{AllocError, Global};
use std::process::Abort;
use std::rt::HostRuntime;
use std::test::Fail;
use survivor_ring::{RingSurvivors, Survivors};

/// The steps that end a symbol of the stream: the first one has one step, and the third one none.
const ENDS: [usize; 5] = [1, 1500, 1500, 4400, 6000];

/// Whether both have the same reports of the last symbol, and the same pending bits. The whole bytes are taken.
fn are_alike<A: Acs, V: Survivors<2048>>(one: &mut Branch<A, V>, other: &mut Branch<A, V>) -> bool
    ensures one { one.new ≡ record one.old { wait = one.new.wait } }
    ensures other { other.new ≡ record other.old { wait = other.new.wait } }
{
    let mut alike = one.events() == other.events() && one.waiting() == other.waiting();
    for _k in 0..1000u32 {
        if one.take_byte() != other.take_byte() {
            alike = false;
        }
    }
    alike
}

/// Loads the pairs of a symbol: the first one by itself, and then the others at once.
fn load<A: Acs, V: Survivors<2048>>(branch: &mut Branch<A, V>, pairs: &[CostPair])
    requires going { branch.old.decoder.ended ≡ false }
    requires empty { branch.old.loaded ≡ [] }
    requires room { length pairs.now ≤ branch.old.most }
    ensures loaded { length branch.new.loaded ≡ length pairs.now }
    ensures decoder { branch.new.decoder ≡ branch.old.decoder }
    ensures most { branch.new.most ≡ branch.old.most }
    ensures wait { branch.new.wait ≡ branch.old.wait }
{
    if pairs.is_empty() {
        return;
    }
    branch.load(pairs[0]);
    branch.load_all(&pairs[1..]);
}

/// The number of reports of the symbols, and whether both branches are alike after each and at the end.
fn run_both<A: Acs, V: Survivors<2048>>(
    rt: &impl Abort,
    alloc: Global,
    start: StartState,
    costs: &[CostPair],
) -> Result<(usize, bool), AllocError>
    requires { length costs.now ≡ 6000 }
{
    let mut loading: Branch<A, V> = Branch::new(alloc, start, 6000)?;
    let mut lending: Branch<A, V> = Branch::new(alloc, start, 0)?;
    let mut from = 0usize;
    let mut reports = 0usize;
    let mut alike = true;
    for end in ENDS {
        assert!(rt; from <= end && end <= 6000);
        assert!(rt; loading.waiting() < 8 && lending.waiting() < 8);
        load(&mut loading, &costs[from..end]);
        loading.run_symbol();
        lending.run_over(&costs[from..end]);
        reports = reports.saturating_add(lending.events().len());
        alike = are_alike(&mut loading, &mut lending) && alike;
        from = end;
    }
    assert!(rt; loading.waiting() < 8 && lending.waiting() < 8);
    loading.finish();
    lending.finish();
    alike = are_alike(&mut loading, &mut lending) && alike;
    Ok((reports, alike))
}

#[test]
fn pairs_where_they_lie(rt: HostRuntime) -> Result<(), Fail> {
    let costs = long_stream(rt.alloc())?;
    for start in [StartState::Zero, StartState::Any] {
        let lanes = run_both::<LaneAcs, RingSurvivors<2048>>(&rt, rt.alloc(), start, &costs)?;
        let plain = run_both::<PlainAcs, RingSurvivors<2048>>(&rt, rt.alloc(), start, &costs)?;
        assert!(rt;
            [lanes, plain] == [(1, true); 2],
            "found {lanes:?} and {plain:?}"
        );
    }
    Ok(())
}
