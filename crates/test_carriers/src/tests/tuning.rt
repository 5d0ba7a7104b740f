// Symbols of a transmission from any point on, and symbols with chosen TPS bits. The expected places are those of an
// independent program.
ghost use Rattle.std.specs.Prelude.{◌≡◌, length};
ghost use Rattle.mode_set.specs.declared.modes.Mode.TheVariants.{M2k};

use super::parameters::two_streams;
use frame_build::{SymbolIn, SymbolOut};
use mode_set::{
    Carriers, Entry, Guard, Hierarchy, Mode, Mode2k, Mode8k, Plan, Rate, Settings, Shape, Start,
};
use qam_map::Cell;
use std::alloc::Global;
use std::process::Abort;
use std::rt::HostRuntime;
use test_tools::{flat, hierarchical};
use tps_word::TpsWord;
use tune_in::{Found, Tuner, announced, begin};

fn base() -> Settings
    ensures { result.mode ≡ M2k }
{
    let mut settings = flat(Mode::M2k, Shape::Qpsk, Rate::R1of2);
    settings.workers = 3;
    settings.max_symbols = 1000;
    settings
}

fn layered(mode: Mode) -> Settings
    ensures { result.mode ≡ mode }
{
    let mut settings = hierarchical(
        mode,
        Shape::Qam64,
        Hierarchy::Alpha2,
        Rate::R5of6,
        Rate::R7of8,
    );
    settings.guard = Guard::G1of4;
    settings.cell_id = Some(0xABCD);
    settings.workers = 2;
    settings.max_symbols = 500;
    settings
}

fn turned_if(turned: bool, cell: Cell) -> Cell {
    if turned {
        Cell {
            re: cell.re.wrapping_neg(),
            im: cell.im.wrapping_neg(),
        }
    } else {
        cell
    }
}

// The bytes of the next symbol, with label 1 on each payload carrier. The next super-frame has the parameters of
// `next`.
fn next_bytes<M: Carriers>(
    rt: &impl Abort,
    alloc: Global,
    out: &mut SymbolOut<M>,
    now: &Entry,
    next: &Entry,
) -> Vec<u8> {
    let labels = vec![in alloc; 1u8; M::NMAX as usize].expect(rt, "memory");
    let mut bytes = Vec::with_capacity(alloc, 5 * M::K as usize).expect(rt, "memory");
    out.write(now, next, &labels, &mut bytes);
    bytes
}

// The cells of a symbol, inverted or unchanged.
fn cells_of<M: Carriers>(rt: &impl Abort, alloc: Global, bytes: &[u8], turned: bool) -> Vec<Cell>
    ensures { length result.items ≡ M.K }
{
    let mut input = SymbolIn::<M>::new(alloc).expect(rt, "memory");
    input.take(bytes);
    let whole = input.whole();
    assert!(rt; whole);
    let mut cells = Vec::new(alloc);
    for cell in input.cells() {
        cells.push(turned_if(turned, *cell)).expect(rt, "memory");
    }
    assert!(rt; cells.len() == M::K as usize);
    cells
}

// The result with one more symbol.
fn found_with<M: Carriers>(rt: &impl Abort, tuner: &mut Tuner<M>, cells: &[Cell]) -> Option<Found>
    requires { length cells.now ≡ M.K }
{
    let fits = !tuner.found() && tuner.symbols() < 1000;
    assert!(rt; fits);
    tuner.symbol(cells)
}

// The result in symbols `from` to `to` of a transmission, and after how many of these; at each symbol of `turns` the
// sign of all cells changes.
fn tuned<M: Carriers>(
    rt: &impl Abort,
    alloc: Global,
    settings: &Settings,
    next: &Entry,
    from: u16,
    to: u16,
    turns: &[u16],
) -> (u64, Option<Found>)
    requires { settings.now.mode ≡ M.MODE }
{
    let now = settings.top();
    let mut out = SymbolOut::<M>::new(settings);
    let mut tuner = Tuner::<M>::new(alloc).expect(rt, "memory");
    let mut turned = false;
    for number in 0..to {
        let bytes = next_bytes(rt, alloc, &mut out, &now, next);
        turned ^= turns.contains(&number);
        if number >= from {
            let cells = cells_of::<M>(rt, alloc, &bytes, turned);
            let found = found_with(rt, &mut tuner, &cells);
            if found.is_some() {
                return (tuner.symbols(), found);
            }
        }
    }
    (tuner.symbols(), None)
}

// The frame of these settings that begins at this symbol.
fn frame_at(rt: &impl Abort, settings: &Settings, (place, frame): (u64, u8)) -> Found {
    assert!(rt; 1 <= frame && frame <= 4);
    Found {
        place,
        word: TpsWord::signalled(settings, frame),
    }
}

// The number of the frame found in 68 symbols with these bits, or 0.
fn frame_shown(rt: &impl Abort, alloc: Global, bits: &[u8; 67]) -> u8 {
    let mut tuner = Tuner::<Mode2k>::new(alloc).expect(rt, "memory");
    let mut turned = true;
    for number in 0..68usize {
        if number > 0 {
            turned ^= bits[number - 1] == b'1';
        }
        let cell = turned_if(turned, Cell { re: 16384, im: 0 });
        if let Some(found) = found_with(rt, &mut tuner, &[cell; 1705]) {
            assert!(rt; number == 67 && found.place == 0);
            return found.word.frame;
        }
    }
    0
}

// Parts of a transmission: their first symbol and the one after their last, and where the sign of all cells changes.
// Then after how many symbols a frame is found, its place and its number.
const PARTS: [(u16, u16, &[u16], u64, Option<(u64, u8)>); 6] = [
    // Two super-frames without their first ten symbols: the frame of symbol 58 is the second one.
    (10, 544, &[], 126, Some((58, 2))),
    // 67 symbols are no frame, 68 are one.
    (0, 67, &[], 67, None),
    (0, 68, &[], 68, Some((0, 1))),
    // One or two wrong votes are corrected; with three the next frame is the first one found.
    (0, 136, &[16], 68, Some((0, 1))),
    (0, 136, &[1, 67], 68, Some((0, 1))),
    (0, 136, &[3, 40, 60], 136, Some((68, 2))),
];

#[test]
fn first_frame_of_a_part(rt: HostRuntime) {
    let settings = base();
    let entry = settings.top();
    for (from, to, turns, symbols, place) in PARTS {
        let found = tuned::<Mode2k>(&rt, rt.alloc(), &settings, &entry, from, to, turns);
        let frame = place.map(|place| frame_at(&rt, &settings, place));
        assert!(&rt; found == (symbols, frame));
    }
}

// The last frame of a super-frame of a hierarchical transmission in the 8K mode.
#[test]
fn eight_thousand_carriers(rt: HostRuntime) {
    let settings = layered(Mode::M8k);
    let found = tuned::<Mode8k>(&rt, rt.alloc(), &settings, &settings.top(), 204, 304, &[]);
    assert!(&rt; found == (68, Some(frame_at(&rt, &settings, (0, 4)))));
}

// The super-frame after the first one of a transmission.
#[test]
fn next_super_frame(rt: HostRuntime) {
    let first = Found {
        place: 0,
        word: TpsWord::signalled(&base(), 1),
    };
    assert!(&rt; begin(&first) == 272);
}

// The super-frame before one of hierarchical 16-QAM announces it: the word has the constellation, the hierarchy and the
// rates of the next super-frame, while the symbols still have their own.
#[test]
fn next_parameters_are_announced(rt: HostRuntime) {
    let settings = base();
    let rates = (Rate::R1of2, Rate::R3of4);
    let next = two_streams(Shape::Qam16, Hierarchy::Alpha4, rates);
    let (_, found) = tuned::<Mode2k>(&rt, rt.alloc(), &settings, &next.top(), 0, 68, &[]);
    let announced = found.map(|found| {
        let word = found.word;
        (word.shape, word.hierarchy, word.rate_hp, word.rate_lp)
    });
    let wanted = (Shape::Qam16, Hierarchy::Alpha4, Rate::R1of2, Rate::R3of4);
    assert!(&rt; announced == Some(wanted));
}

// The words of frames 1 and 2 of QPSK at 1/2 in the 2K mode, without errors and with two, as another program makes and
// finds them, and the number of the frame.
const WORDS_THAT_COUNT: [(&[u8; 67], u8); 4] = [
    (
        b"0011010111101110010111000000000000000000000000000000001100110000100",
        1,
    ),
    // Two errors in the sync word.
    (
        b"0010010110101110010111000000000000000000000000000000001100110000100",
        1,
    ),
    (
        b"1100101000010001010111010000000000000000000000000000000110010101000",
        2,
    ),
    // Errors at the ends.
    (
        b"0100101000010001010111010000000000000000000000000000000110010101001",
        2,
    ),
];

// Three errors, a word of the other mode, and words of the code with invalid fields; that program finds nothing in any
// of them.
const WORDS_THAT_DO_NOT_COUNT: [&[u8; 67]; 7] = [
    // Three errors in the sync word, and three errors elsewhere.
    b"0010010110100110010111000000000000000000000000000000001100110000100",
    b"0100101000010000010111010000000000000000000000000000000110010101001",
    // The 8K mode.
    b"0011010111101110011111001001001110011011010101100000010110010000100",
    // QPSK with a hierarchy.
    b"0011010111101110010111000000100000000000000000000000001011011111000",
    // The sync word of frame 2.
    b"1100101000010001010111000000000000000000000000000000010101101101101",
    // A rate that does not exist.
    b"0011010111101110010111000000011100000000000000000000011110110110001",
    // A reserved bit.
    b"0011010111101110010111000000000000000000000000000000101101011110011",
];

#[test]
fn words_that_count(rt: HostRuntime) {
    for (bits, frame) in WORDS_THAT_COUNT {
        assert!(&rt; frame_shown(&rt, rt.alloc(), bits) == frame);
    }
}

#[test]
fn words_that_do_not_count(rt: HostRuntime) {
    for bits in WORDS_THAT_DO_NOT_COUNT {
        assert!(&rt; frame_shown(&rt, rt.alloc(), bits) == 0);
    }
}

// The settings announced by words.
#[test]
fn announced_settings(rt: HostRuntime) {
    let word = TpsWord::signalled(&layered(Mode::M2k), 3);
    let settings = announced(&word, &base());
    let expected = Settings {
        mode: Mode::M2k,
        shape: Shape::Qam64,
        hierarchy: Hierarchy::Alpha2,
        rate_hp: Rate::R5of6,
        rate_lp: Some(Rate::R7of8),
        guard: Guard::G1of4,
        cell_id: None,
        start: Start::Any,
        workers: 3,
        max_symbols: 1000,
        plan: Plan::none(),
    };
    assert!(&rt; settings == expected);
    let word = TpsWord::signalled(&base(), 3);
    let settings = announced(&word, &layered(Mode::M2k));
    assert!(&rt; settings.rate_lp.is_none());
}
