// Plans of entries, and the parameters of the super-frames before, at and after each number.
use mode_set::{Entry, Hierarchy, Mode, Plan, Rate, Settings, Shape};
use test_tools::{flat, hierarchical};

// QPSK at 1/2 from a super-frame on.
fn plain(after: u32) -> Entry {
    Entry {
        after,
        shape: Shape::Qpsk,
        hierarchy: Hierarchy::Flat,
        rate_hp: Rate::R1of2,
        rate_lp: None,
    }
}

// Two streams on 16-QAM from a super-frame on.
fn layered(after: u32) -> Entry {
    Entry {
        after,
        shape: Shape::Qam16,
        hierarchy: Hierarchy::Alpha4,
        rate_hp: Rate::R2of3,
        rate_lp: Some(Rate::R3of4),
    }
}

// One stream on 64-QAM from the start on.
fn top() -> Entry {
    Entry {
        after: 0,
        shape: Shape::Qam64,
        hierarchy: Hierarchy::Flat,
        rate_hp: Rate::R5of6,
        rate_lp: None,
    }
}

// Which of these entries, and from which super-frame on.
#[derive(Clone, Copy)]
enum Given {
    Top,
    Plain(u32),
    Layered(u32),
}

use Given::{Layered, Plain, Top};

fn entry(given: Given) -> Entry {
    match given {
        Top => top(),
        Plain(after) => plain(after),
        Layered(after) => layered(after),
    }
}

// The plan of these entries, as far as they may follow one another, and how many it accepted.
fn plan_of(entries: &[Given]) -> (Plan, u32) {
    let mut plan = Plan::none();
    let mut taken = 0u32;
    for given in entries {
        if plan.push(entry(*given)) {
            taken = taken.wrapping_add(1);
        }
    }
    (plan, taken)
}

// Settings of one stream on 64-QAM with this plan.
fn with_plan(plan: Plan) -> Settings {
    let mut settings = flat(Mode::M8k, Shape::Qam64, Rate::R5of6);
    settings.plan = plan;
    settings
}

// The same with these entries.
fn planned(entries: &[Given]) -> Settings {
    with_plan(plan_of(entries).0)
}

// The number of entries in the plan, and how many it accepted.
fn taken_of(entries: &[Given]) -> (usize, u32) {
    let (plan, taken) = plan_of(entries);
    (plan.len(), taken)
}

#[test]
fn numbers_rise(rt: HostRuntime) {
    for (entries, taken) in [
        (&[][..], 0),
        (&[Plain(0)][..], 0),
        (&[Plain(1)][..], 1),
        (&[Plain(4294967295)][..], 1),
        (&[Plain(3), Plain(3)][..], 1),
        (&[Plain(3), Layered(3)][..], 1),
        (&[Plain(3), Plain(2)][..], 1),
        (&[Plain(3), Plain(0)][..], 1),
        (&[Plain(1), Plain(3), Plain(2)][..], 2),
        (&[Plain(1), Plain(3), Plain(3), Plain(4)][..], 3),
        (&[Plain(1), Plain(2), Layered(3)][..], 3),
    ] {
        assert_eq!(rt; taken_of(entries), (taken as usize, taken));
    }
}

// Whether the plan rejects each of these entries, and stays unchanged.
fn refuses(plan: &mut Plan, entries: &[Given]) -> bool {
    let before = *plan;
    for given in entries {
        if plan.push(entry(*given)) {
            return false;
        }
    }
    *plan == before
}

// Whether these are the entries of the plan.
fn has_entries(plan: &Plan, entries: &[Given]) -> bool {
    for i in 0..plan.len() {
        if i >= entries.len() || plan.get(i) != entry(entries[i]) {
            return false;
        }
    }
    plan.len() == entries.len()
}

#[test]
fn refused_entries_leave_a_plan(rt: HostRuntime) {
    let mut plan = plan_of(&[Plain(1), Layered(3)]).0;
    assert!(rt; refuses(&mut plan, &[Layered(3), Plain(2), Plain(0)]));
    let before = plan;
    assert!(rt; plan.push(plain(4)) && plan != before);
    assert!(rt; has_entries(&plan, &[Plain(1), Layered(3), Plain(4)]));
}

// The plan with an entry of two streams at every fifth super-frame up to the 80th, if it accepts them all.
fn every_fifth() -> Option<Plan> {
    let mut plan = Plan::none();
    for number in 1..17u32 {
        if !plan.push(layered(5 * number)) {
            return None;
        }
    }
    Some(plan)
}

// Whether each super-frame before the 80th has the entry of the last multiple of five.
fn changes_at_fifths(settings: &Settings) -> bool {
    for super_frame in 0..80u32 {
        if settings.entry(super_frame).after != super_frame / 5 * 5 {
            return false;
        }
    }
    true
}

#[test]
fn sixteen_entries(rt: HostRuntime) {
    let mut plan = every_fifth().expect(&rt, "sixteen entries");
    assert!(rt; !plan.push(layered(81)) && plan.len() == 16);
    let settings = with_plan(plan);
    assert!(rt; changes_at_fifths(&settings));
    let last = layered(80);
    assert!(rt; settings.entry(80) == last && settings.entry(4294967295) == last);
}

#[test]
fn entries_of_super_frames(rt: HostRuntime) {
    let alone = planned(&[]);
    let changing = planned(&[Layered(2), Plain(3), Layered(4294967295)]);
    for (super_frame, expected) in [
        (0, Top),
        (1, Top),
        (2, Layered(2)),
        (3, Plain(3)),
        (4, Plain(3)),
        (4294967294, Plain(3)),
        (4294967295, Layered(4294967295)),
    ] {
        assert!(rt; alone.entry(super_frame) == top(), "at {super_frame}");
        assert!(rt;
            changing.entry(super_frame) == entry(expected),
            "at {super_frame}"
        );
    }
}

#[test]
fn settings_with_an_entry(rt: HostRuntime) {
    let settings = planned(&[Layered(2), Plain(3)]);
    let mut expected = hierarchical(
        Mode::M8k,
        Shape::Qam16,
        Hierarchy::Alpha4,
        Rate::R2of3,
        Rate::R3of4,
    );
    let layered = settings.with_entry(&layered(2));
    assert!(rt; layered != expected);
    expected.plan = settings.plan;
    assert!(rt; layered == expected && settings.with_entry(&settings.entry(1)) == settings);
}

// Whether settings of one stream and settings of two have an LP stream with these entries.
fn have_lp(entries: &[Given]) -> (bool, bool) {
    let one = planned(entries);
    let mut two = hierarchical(
        Mode::M2k,
        Shape::Qam16,
        Hierarchy::Alpha1,
        Rate::R1of2,
        Rate::R1of2,
    );
    two.plan = one.plan;
    (one.has_lp(), two.has_lp())
}

#[test]
fn low_priority_of_a_plan(rt: HostRuntime) {
    for (entries, has_lp) in [
        (&[][..], false),
        (&[Plain(1)][..], false),
        (&[Layered(1)][..], true),
        (&[Plain(1), Plain(2), Layered(3)][..], true),
        (&[Plain(1), Layered(2), Plain(3)][..], true),
        (&[Plain(1), Plain(2), Plain(3)][..], false),
    ] {
        let (one, two) = have_lp(entries);
        assert!(rt; one == has_lp && two);
    }
}
