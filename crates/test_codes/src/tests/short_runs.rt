// A path memory of eight steps that ends unmerged, and a branch of one symbol.
use acs_plain::PlainAcs;
use bit_pack::WaitBuf;
use code_paths::CostPair;
use inner_decoder::{Branch, Decoder, StartState};
use std::rt::HostRuntime;
use std::test::Fail;
use survivor_ring::{ListSurvivors, RingSurvivors};

const TIED: CostPair = CostPair {
    x0: 0,
    x1: 0,
    y0: 0,
    y1: 9,
};

#[test]
fn first_report(rt: HostRuntime) -> Result<(), Fail> {
    let mut decoder: Decoder<PlainAcs, ListSurvivors<8>, 8> = Decoder::new(
        rt.alloc(),
        StartState::Any,
    )?;
    let mut to = WaitBuf::new();
    let mut first = 0u64;
    for _k in 0..40u8 {
        if let Some(report) = decoder.step(TIED, &mut to) {
            if first == 0 {
                first = report.at;
            }
        }
    }
    decoder.finish(&mut to);
    assert!(rt; (first, to.waiting(), decoder.ended()) == (9, 40, true));
    Ok(())
}

#[test]
fn branch_of_one_symbol(rt: HostRuntime) -> Result<(), Fail> {
    let mut branch: Branch<PlainAcs, RingSurvivors<2048>> = Branch::new(
        rt.alloc(),
        StartState::Zero,
        3,
    )?;
    branch.load_all(&[TIED]);
    branch.load(TIED);
    let loaded = branch.loaded();
    branch.run_symbol();
    let run = (branch.loaded(), branch.events().len(), branch.ended());
    branch.finish();
    let bytes = (branch.waiting(), branch.take_byte());
    assert!(rt; (loaded, run, bytes) == (2, (0, 0, false), (2, None)));
    let bits = [branch.take_bit(), branch.take_bit(), branch.take_bit()];
    assert!(rt; (bits, branch.waiting()) == ([Some(false), Some(false), None], 0));
    Ok(())
}
