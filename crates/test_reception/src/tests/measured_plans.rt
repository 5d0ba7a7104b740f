// Transmissions with changing parameters. The expected reports are those of an independent program.
use super::measure_running::{MEASURE, first, prints, stands};
use std::test::Fail;
use test_runs::{BASE, LAYERED, ample, run_on_cells, sent};

/// LP appears with the second super-frame.
const LP_COMES: &str =
    "plan = [{ after = 1, constellation = \"16qam\", hierarchy = \"4\", rate_hp = \"1/2\", rate_lp = \"3/4\" }]\n";

const LP_COMES_ANY: &str =
    "start = \"any\"\nplan = [{ after = 1, constellation = \"16qam\", hierarchy = \"4\", rate_hp = \"1/2\", rate_lp = \"3/4\" }]\n";

const COMES: &str =
    "superframe 0 symbols 272 cells 411264 muted 0 power 110393313004800 error 0 tps read 4 bad 0\nhp bits 822528 wrong 0 words 241 clean 241 corrected 0 bad 0 unphased 0 unmerged 0 repaired 0\nlp bits 0 wrong 0 words 0 clean 0 corrected 0 bad 0 unphased 0 unmerged 0 repaired 0\nsuperframe 1 symbols 272 cells 411264 muted 0 power 111517478838272 error 0 tps read 4 bad 0\nhp bits 822528 wrong 0 words 252 clean 252 corrected 0 bad 0 unphased 0 unmerged 0 repaired 0\nlp bits 822528 wrong 0 words 367 clean 367 corrected 0 bad 0 unphased 0 unmerged 0 repaired 0\nsymbols 544 tail 0\ntps read 8 bad 0\nhp words 493 clean 493 corrected 0 bad 0 unphased 0 unmerged 0\nlp words 367 clean 367 corrected 0 bad 0 unphased 0 unmerged 0\n";

const COMES_ANY: &str =
    "superframe 0 symbols 271 cells 409752 muted 0 power 109987455236400 error 0 tps read 4 bad 0\nhp bits 819504 wrong 0 words 241 clean 241 corrected 0 bad 0 unphased 0 unmerged 0 repaired 0\nlp bits 0 wrong 0 words 0 clean 0 corrected 0 bad 0 unphased 0 unmerged 0 repaired 0\nsuperframe 1 symbols 271 cells 409752 muted 0 power 110984225243136 error 0 tps read 4 bad 0\nhp bits 819504 wrong 0 words 252 clean 252 corrected 0 bad 0 unphased 0 unmerged 0 repaired 0\nlp bits 819504 wrong 0 words 367 clean 367 corrected 0 bad 0 unphased 0 unmerged 0 repaired 0\nsymbols 544 tail 0\ntps read 8 bad 0\nhp words 493 clean 493 corrected 0 bad 0 unphased 0 unmerged 0\nlp words 367 clean 367 corrected 0 bad 0 unphased 0 unmerged 0\n";

// LP has no sums before it appears. From start any its first symbol is not compared either.
#[test]
fn lp_comes(rt: HostRuntime) -> Result<(), Fail> {
    let alloc = rt.alloc();
    let cells = sent(&rt, alloc, (BASE, LP_COMES), (300, Some(100)), 2)?;
    prints(&rt, alloc, (BASE, LP_COMES), &cells, COMES)?;
    prints(&rt, alloc, (BASE, LP_COMES_ANY), &cells, COMES_ANY)?;
    Ok(())
}

/// LP pauses for two super-frames.
const LP_PAUSES: &str =
    "plan = [{ after = 1, constellation = \"qpsk\", rate_hp = \"1/2\" }, { after = 3, constellation = \"16qam\", hierarchy = \"4\", rate_hp = \"1/2\", rate_lp = \"3/4\" }]\n";

const PAUSES: &str =
    "superframe 0 symbols 271 cells 409752 muted 0 power 110582416408576 error 0 tps read 4 bad 0\nhp bits 819504 wrong 0 words 241 clean 241 corrected 0 bad 0 unphased 0 unmerged 0 repaired 0\nlp bits 819504 wrong 0 words 366 clean 366 corrected 0 bad 0 unphased 0 unmerged 0 repaired 0\nsuperframe 1 symbols 272 cells 411264 muted 0 power 110393313004800 error 0 tps read 4 bad 0\nhp bits 822528 wrong 0 words 252 clean 252 corrected 0 bad 0 unphased 0 unmerged 0 repaired 0\nlp bits 0 wrong 0 words 0 clean 0 corrected 0 bad 0 unphased 0 unmerged 0 repaired 0\nsuperframe 2 symbols 272 cells 411264 muted 0 power 110393313004800 error 0 tps read 4 bad 0\nhp bits 822528 wrong 0 words 252 clean 252 corrected 0 bad 0 unphased 0 unmerged 0 repaired 0\nlp bits 0 wrong 0 words 1 clean 1 corrected 0 bad 0 unphased 0 unmerged 0 repaired 0\nsuperframe 3 symbols 272 cells 411264 muted 0 power 110979083907072 error 0 tps read 4 bad 0\nhp bits 822528 wrong 0 words 252 clean 252 corrected 0 bad 0 unphased 0 unmerged 0 repaired 0\nlp bits 822528 wrong 0 words 378 clean 378 corrected 0 bad 0 unphased 0 unmerged 0 repaired 0\nsymbols 1088 tail 0\ntps read 16 bad 0\nhp words 997 clean 997 corrected 0 bad 0 unphased 0 unmerged 0\nlp words 745 clean 745 corrected 0 bad 0 unphased 0 unmerged 0\n";

const PAUSES_274: &str =
    "superframe 0 symbols 272 cells 411264 muted 0 power 110986000965632 error 0 tps read 4 bad 0\nhp bits 822528 wrong 0 words 241 clean 241 corrected 0 bad 0 unphased 0 unmerged 0 repaired 0\nlp bits 822528 wrong 0 words 367 clean 367 corrected 0 bad 0 unphased 0 unmerged 0 repaired 0\nsuperframe 1 symbols 2 cells 3024 muted 0 power 811715536800 error 0 tps read 0 bad 0\nhp bits 6048 wrong 0 words 1 clean 1 corrected 0 bad 0 unphased 0 unmerged 0 repaired 0\nlp bits 0 wrong 0 words 0 clean 0 corrected 0 bad 0 unphased 0 unmerged 0 repaired 0\nsymbols 274 tail 0\ntps read 4 bad 0\nhp words 242 clean 242 corrected 0 bad 0 unphased 0 unmerged 0\nlp words 367 clean 367 corrected 0 bad 0 unphased 0 unmerged 0\n";

const PAUSES_275: &str =
    "superframe 0 symbols 271 cells 409752 muted 0 power 110582416408576 error 0 tps read 4 bad 0\nhp bits 819504 wrong 0 words 241 clean 241 corrected 0 bad 0 unphased 0 unmerged 0 repaired 0\nlp bits 819504 wrong 0 words 366 clean 366 corrected 0 bad 0 unphased 0 unmerged 0 repaired 0\nsuperframe 1 symbols 3 cells 4536 muted 0 power 1217573305200 error 0 tps read 0 bad 0\nhp bits 9072 wrong 0 words 2 clean 2 corrected 0 bad 0 unphased 0 unmerged 0 repaired 0\nlp bits 0 wrong 0 words 1 clean 1 corrected 0 bad 0 unphased 0 unmerged 0 repaired 0\nsymbols 275 tail 0\ntps read 4 bad 0\nhp words 243 clean 243 corrected 0 bad 0 unphased 0 unmerged 0\nlp words 367 clean 367 corrected 0 bad 0 unphased 0 unmerged 0\n";

// The last word of LP before the pause is counted with the super-frame before LP resumes.
#[test]
fn lp_pauses(rt: HostRuntime) -> Result<(), Fail> {
    let alloc = rt.alloc();
    let cells = sent(&rt, alloc, (LAYERED, LP_PAUSES), (300, Some(500)), 4)?;
    let few = first(alloc, &cells, 274, 0)?;
    let more = first(alloc, &cells, 275, 0)?;
    prints(&rt, alloc, (LAYERED, LP_PAUSES), &few, PAUSES_274)?;
    prints(&rt, alloc, (LAYERED, LP_PAUSES), &more, PAUSES_275)?;
    prints(&rt, alloc, (LAYERED, LP_PAUSES), &cells, PAUSES)?;
    Ok(())
}

/// Limits below two super-frames, and the report.
static LIMITS: [(&str, &str); 4] = [
    ("max_symbols = 1\n", "limit 1\n"),
    ("max_symbols = 274\n", "limit 274\n"),
    (
        "max_symbols = 275\n",
        "superframe 0 symbols 272 cells 411264 muted 0 power 110393313004800 error 0 tps read 4 bad 0\nhp bits 822528 wrong 0 words 241 clean 241 corrected 0 bad 0 unphased 0 unmerged 0 repaired 0\nlimit 275\n",
    ),
    (
        "max_symbols = 543\n",
        "superframe 0 symbols 272 cells 411264 muted 0 power 110393313004800 error 0 tps read 4 bad 0\nhp bits 822528 wrong 0 words 241 clean 241 corrected 0 bad 0 unphased 0 unmerged 0 repaired 0\nlimit 543\n",
    ),
];

// Past the limit the report has the lines that the symbols within it define.
#[test]
fn limits_of_symbols(rt: HostRuntime) -> Result<(), Fail> {
    let alloc = rt.alloc();
    let cells = sent(&rt, alloc, (BASE, ""), (300, None), 2)?;
    for (more, report) in &LIMITS {
        let ran = run_on_cells(&rt, alloc, MEASURE, (BASE, *more), &cells, ample(5_000))?;
        stands(&rt, &ran, 8, report);
    }
    Ok(())
}
