// The text of reports.
use mode_set::Stream;
use rescue as rescued;
use rescue_words::RescueCounts;
use rx_report::{Counts, Event, StreamCounts};
use std::alloc::{AllocError, Global};
use std::test::Fail;

// The closing lines of a report.
fn text_of(alloc: Global, counts: &Counts) -> Result<String, AllocError> {
    let mut text = String::new(alloc);
    for number in 0..6u8 {
        if let Some(line) = counts.line(number) {
            text.push_str(line.as_str())?;
        }
    }
    Ok(text)
}

// Those of `rescue`.
fn rescued_text_of(alloc: Global, counts: &rescued::Counts) -> Result<String, AllocError> {
    let mut text = String::new(alloc);
    for number in 0..6u8 {
        if let Some(line) = counts.line(number) {
            text.push_str(line.as_str())?;
        }
    }
    Ok(text)
}

// The counts of a reception of one stream.
fn counts() -> Counts {
    Counts {
        symbols: 272,
        tail: 6819,
        tps_read: 3,
        tps_bad: 1,
        hp: StreamCounts {
            words: 241,
            clean: 230,
            corrected: 7,
            bad: 4,
            unphased: 3,
            unmerged: 1,
        },
        lp: None,
    }
}

const LINES: &str =
    "symbols 272 tail 6819\ntps read 3 bad 1\nhp words 241 clean 230 corrected 7 bad 4 unphased 3 unmerged 1\n";

const LINES_OF_TWO: &str =
    "symbols 272 tail 6819\ntps read 3 bad 1\nhp words 241 clean 230 corrected 7 bad 4 unphased 3 unmerged 1\nlp words 0 clean 0 corrected 0 bad 0 unphased 0 unmerged 0\n";

#[test]
fn lines_of_reports(rt: HostRuntime) -> Result<(), Fail> {
    let mut counts = counts();
    assert_eq!(rt; text_of(rt.alloc(), &counts)?.as_str(), LINES);
    counts.lp = Some(StreamCounts::default());
    assert_eq!(rt; text_of(rt.alloc(), &counts)?.as_str(), LINES_OF_TWO);
    Ok(())
}

#[test]
fn line_of_an_event(rt: HostRuntime) {
    let event = Event {
        stream: Stream::Lp,
        at: u64::MAX,
    };
    assert_eq!(rt;
        event.line().as_str(),
        "lp unmerged at 18446744073709551615\n"
    );
}

// The counts of a reception of one stream by `rescue`.
fn rescued_counts() -> rescued::Counts {
    let words = RescueCounts {
        words: 241,
        clean: 201,
        corrected: 20,
        rescued: 5,
        bad: 15,
        unphased: 3,
    };
    rescued::Counts {
        symbols: 272,
        tail: 6819,
        hp: rescued::StreamCounts { words, unmerged: 1 },
        lp: None,
    }
}

const RESCUED: &str =
    "symbols 272 tail 6819\nhp words 241 clean 201 corrected 20 rescued 5 bad 15 unphased 3 unmerged 1\n";

const RESCUED_OF_TWO: &str =
    "symbols 272 tail 6819\nhp words 241 clean 201 corrected 20 rescued 5 bad 15 unphased 3 unmerged 1\nlp words 0 clean 0 corrected 0 rescued 0 bad 0 unphased 0 unmerged 0\n";

#[test]
fn lines_of_rescued_words(rt: HostRuntime) -> Result<(), Fail> {
    let mut counts = rescued_counts();
    assert_eq!(rt; rescued_text_of(rt.alloc(), &counts)?.as_str(), RESCUED);
    counts.lp = Some(rescued::StreamCounts::default());
    assert_eq!(rt;
        rescued_text_of(rt.alloc(), &counts)?.as_str(),
        RESCUED_OF_TWO
    );
    Ok(())
}
