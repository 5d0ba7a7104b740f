// Tables of small cost lists.
ghost use Rattle.std.specs.Prelude.{◌≡◌, ◌<◌, ◌≤◌, length};

use super::decoding::{
    Outcome, by_steps, by_symbols, decoded, defined, long_stream, pairs_of, unmerged,
};
use acs_lanes::LaneAcs;
use acs_plain::PlainAcs;
use code_paths::CostPair;
use inner_decoder::StartState;
use std::alloc::{AllocError, Global};
use std::process::Abort;
use std::rt::HostRuntime;
use std::test::Fail;
use survivor_ring::{ListSurvivors, RingSurvivors, Survivors};

/// Whether all four decoders give this for a list of costs.
fn all_make<const L: usize>(
    alloc: Global,
    start: StartState,
    costs: &[CostPair],
    want: &str,
) -> Result<bool, AllocError>
    requires some { 0 < L }
    requires few { L ≤ 2048 }
    requires short { length costs.now ≤ 1000 }
{
    let plain = decoded::<PlainAcs, ListSurvivors<L>, L>(alloc, start, costs)?;
    let ring = decoded::<PlainAcs, RingSurvivors<L>, L>(alloc, start, costs)?;
    let lanes = decoded::<LaneAcs, ListSurvivors<L>, L>(alloc, start, costs)?;
    let both = decoded::<LaneAcs, RingSurvivors<L>, L>(alloc, start, costs)?;
    let texts = [plain.as_str(), ring.as_str(), lanes.as_str(), both.as_str()];
    Ok(texts == [want; 4])
}

/// Whether all four decoders with a path memory of `most` steps give this for a list of costs.
fn make(
    alloc: Global,
    most: usize,
    start: StartState,
    costs: &[CostPair],
    want: &str,
) -> Result<bool, AllocError>
    requires short { length costs.now ≤ 1000 }
{
    match most {
        1 => all_make::<1>(alloc, start, costs, want),
        2 => all_make::<2>(alloc, start, costs, want),
        3 => all_make::<3>(alloc, start, costs, want),
        4 => all_make::<4>(alloc, start, costs, want),
        5 => all_make::<5>(alloc, start, costs, want),
        6 => all_make::<6>(alloc, start, costs, want),
        7 => all_make::<7>(alloc, start, costs, want),
        8 => all_make::<8>(alloc, start, costs, want),
        _ => all_make::<21>(alloc, start, costs, want),
    }
}

/// Starts, the most steps, digits of costs and the decoders' output. The texts on the right come from an independent
/// program.
static CASES: [(StartState, usize, &str, &str); 29] = [
    (
        StartState::Zero,
        1,
        "100000110000110000100000001001001000100100011000",
        "a!cc!ee!gg!ii!kk!m=100010100010",
    ),
    (
        StartState::Zero,
        2,
        "0030100303033003033003303030303003303030031023031030303003300330",
        "aa!ddd!ggg!jjj!mmm!pp=1011001001100001",
    ),
    (
        StartState::Zero,
        3,
        "203011110213103301123021221002032233",
        "aaa!eeee!ii=101110100",
    ),
    (
        StartState::Zero,
        5,
        "0001001000010051020022000200220002000200020002000000001022002200",
        "aaaaa!gggggg!mmmmm=0100101100000000",
    ),
    (
        StartState::Zero,
        21,
        "0030033001303030300330101303030303033003303030303030300303303030303003303030033003030003300303011003",
        "aaaaaaaaaaaaaaaaaacceelnn=1101110101011001001101100",
    ),
    (
        StartState::Any,
        1,
        "102312101002301333011032112100332110300202222302",
        "a!cc!ee!gg!ii!kk!m=000100001100",
    ),
    (
        StartState::Any,
        2,
        "000100512200200000000000200002000051",
        "aa!ddd!ggg!j=000100000",
    ),
    (
        StartState::Any,
        3,
        "1000000010100010010000010000000010000100101000001011101001000001",
        "aaa!eeee!iiii!mmmm!q=0000100000001100",
    ),
    (
        StartState::Any,
        5,
        "0300000303030303303030030303300303310330030303300330300330030130",
        "aaaaa!gggggg!mmmmm=1110000011111000",
    ),
    (
        StartState::Any,
        21,
        "0303030303033030300330303030030303303030303003303003300303030330130330030330300330300303313003030303",
        "aaaaaaaaaaaaaaaaaaaaa!wwww=0001000000111001011101110",
    ),
    (
        StartState::Zero,
        1,
        "0000010001001000000000100001000000000101101111111000100010001000",
        "a!cc!ee!gg!ii!kk!mm!oo!q=0001001000101110",
    ),
    (
        StartState::Zero,
        2,
        "020330300330300303303003300330300330320303300330",
        "aa!ddd!ggg!jjj!m=011110100101",
    ),
    (
        StartState::Zero,
        3,
        "100110012332131101023320223003103112",
        "aaa!eeee!ii=101011111",
    ),
    (
        StartState::Zero,
        5,
        "005100100050005002002200001022000001220020000051001000110050020002002000000100000200000120000000",
        "aaaaa!gggggg!mmmmmm!ssssss!y=110100001000111110010100",
    ),
    (
        StartState::Zero,
        21,
        "1100100001010100000010011010010000001010100000000101000001000000100110100000110100001001010001011000",
        "aaaaaaaaaaaaaaaaaaaaa!wwww=1010000001001011100000100",
    ),
    (
        StartState::Any,
        1,
        "3222211132103331300232003103222100120032101333002330212130222323",
        "a!cc!ee!gg!ii!kk!mm!oo!q=0011100100000010",
    ),
    (
        StartState::Any,
        2,
        "00010050000020000200000022000200020000502200001122000001220000000011005102000200",
        "aa!ddd!ggg!jjj!mmm!ppp!sss=00011010100001010010",
    ),
    (
        StartState::Any,
        3,
        "000000001101101011111000011000100010001000011001",
        "aaa!eeee!iiii!m=000001101001",
    ),
    (
        StartState::Any,
        5,
        "303003300330103003300320030330030330030230030303303000303030033003303003030303030330030303300330",
        "aaaaa!gggggg!mmmmmm!ssssss!y=110101100010100100000110",
    ),
    (
        StartState::Any,
        21,
        "0303030303030303030303033030033001303030033030033003300303030303033003303010030303300330320330300330",
        "aaaaaaaaaaaaaaaaaaaaa!wwww=0000001101001101010010011",
    ),
    (
        StartState::Zero,
        4,
        "0100010000110001000010000110010001000011111110000111110010101100111110011001111101100100",
        "aaaa!fffff!kkkkk!ppppp!uuu=0000011000001000011010",
    ),
    (
        StartState::Any,
        4,
        "3030303030033030300003303000033003303030033030303003300030030303303000030000033000000330",
        "aaaa!fffff!kkkkk!ppppp!uuu=0100001000011100001010",
    ),
    (
        StartState::Zero,
        6,
        "333303300003003000003000303333003333300033300030030330303000300330033303333000030303033003030330",
        "aaaaaa!hhhhhhh!ooooooo!vvvv=111110000001000011001110",
    ),
    (
        StartState::Any,
        6,
        "30300330303003300030300000300330000030030303003030303003033003003000030300303003033000003000",
        "aaaaaa!hhhhhhh!ooooooo!vvv=01000000101000000010010",
    ),
    (
        StartState::Zero,
        7,
        "001000001001100001001001101110101010111001001001010100110001111011010111011100000110",
        "aaaaaaa!iiiiiiiij!rrrrr=111000000111000100101",
    ),
    (
        StartState::Any,
        7,
        "033030033030000000300303030330300303030303030030030303300303003003003003003003300303",
        "aaaaaaa!iiiiiiii!qqqqqq=110111001011000011001",
    ),
    (
        StartState::Zero,
        8,
        "033033033030000303033330030033000033000330303003303333003030033033000030030303300033",
        "aaaaaaaa!jjjjjjjjj!ssss=001010100001101000100",
    ),
    (
        StartState::Any,
        8,
        "30030030030030003000000003003003030330030330300003030030300303300300000300033003030330303030",
        "aaaaaaaa!jjjjjjjjj!ssssss=10100100000001001000000",
    ),
    (
        StartState::Any,
        8,
        "0009000900090009000900090009000900090009000900090009000900090009000900090009000900090009000900090009000900090009000900090009000900090009000900090009000900090009",
        "aaaaaaaa!jjjjjjjjj!sssssssss!?????????!?????=0000000000000000000000000000000000000000",
    ),
];

// Whether the decoders give this for the digits, and for the first seven steps the output of the definition.
fn is_decoded(
    rt: &impl Abort,
    alloc: Global,
    start: StartState,
    most: usize,
    digits: &str,
    want: &str,
) -> Result<bool, AllocError> {
    let costs = pairs_of(alloc, digits)?;
    assert!(rt; costs.len() <= 1000);
    let few = &costs[..7.min(costs.len())];
    let by_definition = defined(alloc, start, most, few)?;
    Ok(
        make(alloc, most, start, &costs, want)?
            && make(alloc, most, start, few, by_definition.as_str())?,
    )
}

#[test]
fn small_cost_lists(rt: HostRuntime) -> Result<(), Fail> {
    for (start, most, digits, want) in &CASES {
        let decoded = is_decoded(&rt, rt.alloc(), *start, *most, digits, want)?;
        assert!(rt; decoded, "at {digits}");
    }
    Ok(())
}

// Of 3,024 steps 2,961 are given by the second symbol, all zeros: the whole first part and, of the second one, which
// begins from one register, all but 63.
const UNMERGED: ([usize; 2], u64, [u32; 3], u32) = ([0, 1], 2049, [0, 2961, 64], 0);

#[test]
fn unmerged_over_lists(rt: HostRuntime) -> Result<(), Fail> {
    let survivors: ListSurvivors<2048> = ListSurvivors::new(rt.alloc(), u64::MAX)?;
    let plain = unmerged::<PlainAcs, ListSurvivors<2048>>(&rt, rt.alloc())?;
    let lanes = unmerged::<LaneAcs, ListSurvivors<2048>>(&rt, rt.alloc())?;
    assert!(rt; survivors.waiting() == 0 && [plain, lanes] == [UNMERGED; 2]);
    Ok(())
}

#[test]
fn unmerged_over_words(rt: HostRuntime) -> Result<(), Fail> {
    let survivors: RingSurvivors<2048> = RingSurvivors::new(rt.alloc(), u64::MAX)?;
    let plain = unmerged::<PlainAcs, RingSurvivors<2048>>(&rt, rt.alloc())?;
    let lanes = unmerged::<LaneAcs, RingSurvivors<2048>>(&rt, rt.alloc())?;
    assert!(rt;
        survivors.waiting() == 0 && survivors.words().is_empty() && [plain, lanes] == [UNMERGED; 2]
    );
    Ok(())
}

// Step by step and in slices, with the plain step and in lanes. The outcomes come from an independent program.
#[test]
fn slices_of_a_long_stream(rt: HostRuntime) -> Result<(), Fail> {
    let costs = long_stream(rt.alloc())?;
    let sums = [
        (StartState::Zero, 16074011208124798040),
        (StartState::Any, 16766549236494724491),
    ];
    for (start, sum) in sums {
        let want = Outcome {
            reports: 1,
            last: 3386,
            sum,
        };
        let found = four_outcomes(&rt, rt.alloc(), start, &costs)?;
        assert!(rt; found == [want; 4], "found {found:?}");
    }
    Ok(())
}

// The decoder's output for the costs step by step, and that of branches in slices: in lanes, with the plain step, and
// over lists.
fn four_outcomes(
    rt: &impl Abort,
    alloc: Global,
    start: StartState,
    costs: &[CostPair],
) -> Result<[Outcome; 4], AllocError>
    requires { length costs.now ≡ 6000 }
{
    Ok([
        by_steps::<PlainAcs, RingSurvivors<2048>>(alloc, start, costs)?,
        by_symbols::<LaneAcs, RingSurvivors<2048>>(rt, alloc, start, costs)?,
        by_symbols::<PlainAcs, RingSurvivors<2048>>(rt, alloc, start, costs)?,
        by_symbols::<LaneAcs, ListSurvivors<2048>>(rt, alloc, start, costs)?,
    ])
}
