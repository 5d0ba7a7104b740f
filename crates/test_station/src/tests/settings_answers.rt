// Documents with their answers.
use super::examples::EXAMPLES;
use super::plan_documents::PLANS;
use super::settings_documents::{BASE, DOCUMENTS};
use mode_set::{Entry, Key, Settings, SettingsError};
use std::alloc::{AllocError, Global};
use std::process::Abort;

// The settings without their plan.
fn settings_text(alloc: Global, s: &Settings) -> Result<String, AllocError> {
    let values = (
        s.mode,
        s.shape,
        s.hierarchy,
        s.rate_hp,
        s.rate_lp,
        s.guard,
        s.cell_id,
        s.start,
        s.workers,
        s.max_symbols,
    );
    format!(in alloc; "{values:?}")
}

// An entry after the earlier ones.
fn entry_text(alloc: Global, e: Entry) -> Result<String, AllocError> {
    let values = (e.after, e.shape, e.hierarchy, e.rate_hp, e.rate_lp);
    format!(in alloc; " {values:?}")
}

// The settings and the entries of their plan as one line.
fn shown(alloc: Global, settings: &Settings) -> Result<String, AllocError> {
    let mut line = settings_text(alloc, settings)?;
    for i in 0..settings.plan.len() {
        line.push_str(&entry_text(alloc, settings.plan.get(i))?)?;
    }
    Ok(line)
}

// The result for a document as one line.
fn answer(alloc: Global, document: &str) -> Result<String, AllocError> {
    match Settings::read(alloc, document.as_bytes()) {
        Ok(settings) => shown(alloc, &settings),
        Err(error) => format!(in alloc; "{error:?}"),
    }
}

// The document of a case, in which `@` stands for the base.
fn document(alloc: Global, case: &str) -> Result<String, AllocError> {
    match case.strip_prefix("@\n") {
        Some(more) => format!(in alloc; "{BASE}{more}"),
        None => String::from_str(alloc, case),
    }
}

// The two parts of a case: its first line, and the document.
fn parts(case: &str) -> (&str, &str) {
    case.split_once("\n").unwrap_or((case, ""))
}

// The result for the document of a case.
fn answer_of_case(alloc: Global, case: &str) -> Result<String, AllocError> {
    let text = document(alloc, parts(case).1)?;
    answer(alloc, &text)
}

// The document of a case has the result written before it.
fn has_its_answer(rt: &impl Abort, alloc: Global, case: &str) {
    let got = answer_of_case(alloc, case).expect(rt, "memory");
    assert_eq!(rt; got.as_str(), parts(case).0, "at {case}");
}

// The same for each case.
fn have_their_answers(rt: &impl Abort, alloc: Global, cases: &str) {
    for case in cases.split("== ").skip(1) {
        has_its_answer(rt, alloc, case);
    }
}

#[test]
fn documents_have_their_answers(rt: HostRuntime) {
    have_their_answers(&rt, rt.alloc(), DOCUMENTS);
}

#[test]
fn plans_have_their_answers(rt: HostRuntime) {
    have_their_answers(&rt, rt.alloc(), PLANS);
}

// A name and a result as a line.
fn line(alloc: Global, name: &str, answer: &str) -> Result<String, AllocError> {
    format!(in alloc; "{name} {answer}\n")
}

// The name of an example and its result.
fn named_answer(alloc: Global, case: &str) -> Result<String, AllocError> {
    let got = answer_of_case(alloc, case)?;
    line(alloc, parts(case).0, &got)
}

// Those of all examples.
fn named_answers(alloc: Global) -> Result<String, AllocError> {
    let mut lines = String::new(alloc);
    for case in EXAMPLES.split("== ").skip(1) {
        lines.push_str(&named_answer(alloc, case)?)?;
    }
    Ok(lines)
}

const ANSWERS_OF_EXAMPLES: &str = "\
16qam-alpha-1 (M2k, Qam16, Alpha1, R1of2, Some(R1of2), G1of16, None, Zero, 1, 1000000)\n\
16qam-alpha-2 (M8k, Qam16, Alpha2, R2of3, Some(R3of4), G1of4, None, Zero, 1, 1000000)\n\
16qam-alpha-4 (M2k, Qam16, Alpha4, R1of2, Some(R3of4), G1of32, None, Zero, 1, 1000000)\n\
16qam (M8k, Qam16, Flat, R3of4, None, G1of8, Some(4660), Zero, 1, 1000000)\n\
64qam-alpha-1 (M8k, Qam64, Alpha1, R3of4, Some(R7of8), G1of16, None, Any, 1, 1000000)\n\
64qam-alpha-2 (M8k, Qam64, Alpha2, R2of3, Some(R3of4), G1of32, None, Zero, 1, 1000000)\n\
64qam-alpha-4 (M2k, Qam64, Alpha4, R1of2, Some(R5of6), G1of8, None, Zero, 1, 272)\n\
64qam (M8k, Qam64, Flat, R2of3, None, G1of32, None, Zero, 1, 1000000)\n\
plan (M2k, Qpsk, Flat, R1of2, None, G1of32, None, Zero, 1, 1000000) (1, Qam16, Alpha4, R1of2, Some(R3of4))\n\
qpsk (M2k, Qpsk, Flat, R1of2, None, G1of32, None, Zero, 1, 1000000)\n\
";

// The examples by their purpose. One has a plan.
#[test]
fn examples_are_settings(rt: HostRuntime) {
    let lines = named_answers(rt.alloc()).expect(&rt, "memory");
    assert_eq!(rt; lines.as_str(), ANSWERS_OF_EXAMPLES);
}

// The entry of a document from a super-frame on.
fn entry_of_document(alloc: Global, after: u32) -> Result<String, AllocError> {
    format!(in alloc; "{{ after = {after}, constellation = \"16qam\", rate_hp = \"5/6\" }},")
}

// The base with this number of entries, for super-frames 5, 10 and so on.
fn with_entries(alloc: Global, count: u32) -> Result<String, AllocError> {
    let mut text = format!(in alloc; "{BASE}plan = [")?;
    for number in 1..count.wrapping_add(1) {
        text.push_str(&entry_of_document(alloc, number.wrapping_mul(5))?)?;
    }
    text.push_str("]\n")?;
    Ok(text)
}

// The number of entries of a document, and where those in effect at super-frames 4, 5 and the last begin.
fn entries_read(alloc: Global, document: &str) -> Result<(usize, u32, u32, u32), SettingsError> {
    let settings = Settings::read(alloc, document.as_bytes())?;
    Ok((
        settings.plan.len(),
        settings.entry(4).after,
        settings.entry(5).after,
        settings.entry(4294967295).after,
    ))
}

#[test]
fn a_document_has_1_to_16_entries(rt: HostRuntime) {
    for count in 0..20u32 {
        let text = with_entries(rt.alloc(), count).expect(&rt, "memory");
        let expected = if (1..17).contains(&count) {
            Ok((count as usize, 0, 5, 5 * count))
        } else {
            Err(SettingsError::Value(Key::Plan))
        };
        assert_eq!(rt; entries_read(rt.alloc(), &text), expected);
    }
}

// The reason to reject the base, if any, with spaces after it and this as the last of 65,536 bytes.
fn refusal(alloc: Global, last: u8) -> Option<SettingsError> {
    let mut bytes = [b' '; 65_536];
    bytes[..BASE.len()].copy_from_slice(BASE.as_bytes());
    bytes[65_535] = last;
    Settings::read(alloc, &bytes).err()
}

// The largest settings file that the program accepts, and bytes that are not text.
#[test]
fn long_and_broken_documents(rt: HostRuntime) {
    for (last, expected) in [(b' ', None), (0xFF, Some(SettingsError::NotToml))] {
        assert_eq!(rt; refusal(rt.alloc(), last), expected);
    }
}

#[test]
fn names_of_keys(rt: HostRuntime) {
    assert_eq!(rt; Key::Plan.text(), "plan");
    assert_eq!(rt; Key::MaxSymbols.text(), "max_symbols");
}
