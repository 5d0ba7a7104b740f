// Sent symbols read back: a symbol in pieces, and the costs of the modulator's own symbols.
ghost use Rattle.std.specs.Prelude.{◌≡◌, ◌*◌, length};

use super::parameters::{RATES, two_streams};
use super::sending::{drawn_bytes, first_symbols};
use conv_code::{CostPair, Encoder};
use frame_build::{SymbolIn, plain};
use inner_chain::InnerRx;
use mode_set::{Carriers, Hierarchy, Mode, Mode2k, Mode8k, Rate, Settings, Shape, Stream};
use outer_chain::OuterTx;
use puncture::{Sent, sent};
use qam_map::Cell;
use std::alloc::Global;
use std::process::Abort;
use std::rt::HostRuntime;
use std::test::Fail;
use test_tools::{flat, hierarchical, next_byte};
use ts_packet::Packet;

// A symbol taken in pieces of this size.
fn take_in_pieces<M: Carriers>(rt: &impl Abort, symbol: &mut SymbolIn<M>, bytes: &[u8], size: usize)
    ensures { length symbol.new ≡ 5 * M.K }
{
    assert!(rt; size > 0);
    for piece in bytes.chunks(size) {
        let ready = !symbol.whole();
        assert!(rt; ready);
        assert!(rt; symbol.take(piece) == piece.len());
    }
    let whole = symbol.whole();
    assert!(rt; whole);
}

// The cost pairs of a stream in the whole symbol taken; none for a stream that does not exist.
fn pairs_of<M: Carriers>(
    rt: &impl Abort,
    alloc: Global,
    settings: &Settings,
    rx: &mut InnerRx<M>,
    symbol: &SymbolIn<M>,
    l: u8,
    stream: Stream,
) -> Vec<CostPair>
    requires mode { settings.now.mode ≡ M.MODE }
    requires rx { rx.old.mode ≡ settings.now.mode }
    requires whole { length symbol.now ≡ 5 * M.K }
    ensures { rx.new.mode ≡ settings.now.mode }
{
    if !settings.has_stream(stream) {
        return Vec::new(alloc);
    }
    let entry = settings.top();
    let steps = rx.steps(&entry, stream) as usize;
    let mut pairs = Vec::with_capacity(alloc, steps).expect(rt, "memory");
    assert!(rt; l < 68);
    rx.pairs(
        &entry,
        symbol.cells(),
        symbol.weights(),
        l,
        stream,
        &mut pairs,
    );
    assert!(rt; pairs.len() == steps);
    pairs
}

// The costs of both streams in a symbol.
type Costs = (Vec<CostPair>, Vec<CostPair>);

// The costs of symbols from symbol 0 of a frame on, taken in pieces of this size.
fn costs_by<M: Carriers>(
    rt: &impl Abort,
    alloc: Global,
    settings: &Settings,
    rx: &mut InnerRx<M>,
    symbols: &[Vec<u8>],
    size: usize,
) -> Vec<Costs>
    requires mode { settings.now.mode ≡ M.MODE }
    requires rx { rx.old.mode ≡ settings.now.mode }
    ensures { rx.new.mode ≡ settings.now.mode }
{
    let mut symbol = SymbolIn::<M>::new(alloc).expect(rt, "memory");
    let mut costs = Vec::new(alloc);
    for (l, bytes) in symbols.iter().enumerate() {
        take_in_pieces(rt, &mut symbol, bytes, size);
        let l = (l % 68) as u8;
        let hp = pairs_of(rt, alloc, settings, rx, &symbol, l, Stream::Hp);
        let lp = pairs_of(rt, alloc, settings, rx, &symbol, l, Stream::Lp);
        costs.push((hp, lp)).expect(rt, "memory");
        symbol.next();
    }
    costs
}

fn own_costs<M: Carriers>(
    rt: &impl Abort,
    alloc: Global,
    settings: &Settings,
    symbols: &[Vec<u8>],
    size: usize,
) -> Vec<Costs>
    requires { settings.now.mode ≡ M.MODE }
{
    let mut rx = InnerRx::<M>::new(alloc, settings).expect(rt, "memory");
    costs_by(rt, alloc, settings, &mut rx, symbols, size)
}

// The costs from a receiving side made for these settings.
fn costs_of(
    rt: &impl Abort,
    alloc: Global,
    settings: &Settings,
    symbols: &[Vec<u8>],
    size: usize,
) -> Vec<Costs> {
    match settings.mode {
        Mode::M2k => own_costs::<Mode2k>(rt, alloc, settings, symbols, size),
        Mode::M8k => own_costs::<Mode8k>(rt, alloc, settings, symbols, size),
    }
}

// The bits of a stream coded again.
#[derive(Drop)]
struct Coded {
    state: u32,
    byte: u8,
    done: u8,
    encoder: Encoder,
}

fn coded_from(state: u32) -> Coded {
    Coded {
        state,
        byte: 0,
        done: 8,
        encoder: Encoder::start(),
    }
}

fn next_coded(coded: &mut Coded) -> (bool, bool) {
    if coded.done >= 8 {
        coded.byte = next_byte(&mut coded.state);
        coded.done = 0;
    }
    let bit = coded.byte & 0x80 != 0;
    coded.byte = (coded.byte & 0x7F) << 1;
    coded.done += 1;
    coded.encoder.step(bit)
}

// The value sent costs 0 and the other one more; a punctured bit costs 0 for both.
fn fits(bit: bool, is_sent: bool, zero: u16, one: u16) -> bool {
    let (own, other) = if bit { (one, zero) } else { (zero, one) };
    own == 0 && (other >= 1) == is_sent
}

// The cost pairs of a stream in a symbol match the bits sent.
fn pairs_fit(rt: &impl Abort, pairs: &[CostPair], rate: Rate, coded: &mut Coded) {
    for (step, pair) in pairs.iter().enumerate() {
        let (x, y) = next_coded(coded);
        let (has_x, has_y) = match sent(rate, step as u64) {
            Sent::Both => (true, true),
            Sent::OnlyX => (true, false),
            Sent::OnlyY => (false, true),
        };
        let x_fits = fits(x, has_x, pair.x0, pair.x1);
        let y_fits = fits(y, has_y, pair.y0, pair.y1);
        assert!(rt; x_fits && y_fits);
    }
}

// The bytes of the two streams.
type Streams = (Vec<u8>, Vec<u8>);

// The first four symbols of a transmission, with both its streams: carriers repeat after four.
fn come_back(rt: &impl Abort, alloc: Global, settings: &Settings, (hp, lp): &Streams) {
    let symbols = first_symbols(rt, alloc, settings, &[false, true, false, true], (hp, lp));
    let costs = costs_of(rt, alloc, settings, &symbols, 34085);
    let (mut hp, mut lp) = (coded_from(1), coded_from(2));
    for (hp_pairs, lp_pairs) in &costs {
        pairs_fit(rt, hp_pairs, settings.rate(Stream::Hp), &mut hp);
        pairs_fit(rt, lp_pairs, settings.rate(Stream::Lp), &mut lp);
    }
    let has_lp = settings.has_stream(Stream::Lp);
    assert!(rt; costs.len() == 4 && costs.iter().all(|(_, lp)| lp.is_empty() != has_lp));
}

fn with_hierarchy(
    rt: &impl Abort,
    alloc: Global,
    mode: Mode,
    (rate_hp, rate_lp): (Rate, Rate),
    streams: &Streams,
) {
    for shape in [Shape::Qam16, Shape::Qam64] {
        for hierarchy in [Hierarchy::Alpha1, Hierarchy::Alpha2, Hierarchy::Alpha4] {
            if !shape.is_qpsk() && !hierarchy.is_flat() {
                let settings = hierarchical(mode, shape, hierarchy, rate_hp, rate_lp);
                come_back(rt, alloc, &settings, streams);
            }
        }
    }
}

// Every mode, constellation, hierarchy and pair of rates.
#[test]
fn own_symbols_of_every_setting(rt: HostRuntime) {
    let alloc = rt.alloc();
    let streams = (drawn_bytes(&rt, alloc, 1), drawn_bytes(&rt, alloc, 2));
    for mode in [Mode::M2k, Mode::M8k] {
        for rate_hp in RATES {
            for shape in [Shape::Qpsk, Shape::Qam16, Shape::Qam64] {
                come_back(&rt, alloc, &flat(mode, shape, rate_hp), &streams);
            }
            for rate_lp in RATES {
                with_hierarchy(&rt, alloc, mode, (rate_hp, rate_lp), &streams);
            }
        }
    }
}

fn cost_nothing(pairs: &[CostPair]) -> bool {
    pairs.iter().all(|pair| (pair.x0, pair.x1, pair.y0, pair.y1) == (0, 0, 0, 0))
}

// The bytes of a symbol with weight 0 for each cell.
fn without_weights(rt: &impl Abort, alloc: Global, bytes: &[u8]) -> Vec<u8> {
    let mut without = Vec::new(alloc);
    for (i, byte) in bytes.iter().enumerate() {
        let byte = if i % 5 == 4 { 0 } else { *byte };
        without.push(byte).expect(rt, "memory");
    }
    without
}

// The costs of the first symbol with weight 0 for each cell.
fn weightless(rt: &impl Abort, alloc: Global, settings: &Settings) -> Vec<Costs> {
    let streams = (drawn_bytes(rt, alloc, 1), drawn_bytes(rt, alloc, 2));
    let mut symbols = Vec::new(alloc);
    for bytes in &first_symbols(rt, alloc, settings, &[false], (&streams.0, &streams.1)) {
        symbols
            .push(without_weights(rt, alloc, bytes))
            .expect(rt, "memory");
    }
    costs_of(rt, alloc, settings, &symbols, 34085)
}

// Cells of weight 0 have costs of 0.
#[test]
fn cells_without_weight(rt: HostRuntime) {
    for settings in [
        flat(Mode::M2k, Shape::Qpsk, Rate::R1of2),
        flat(Mode::M8k, Shape::Qam64, Rate::R2of3),
        two_streams(Shape::Qam16, Hierarchy::Alpha4, (Rate::R5of6, Rate::R3of4)),
    ] {
        for (hp, lp) in &weightless(&rt, rt.alloc(), &settings) {
            assert!(&rt; cost_nothing(hp) && cost_nothing(lp));
        }
    }
}

// The bytes of the first symbol of null packets.
fn null_symbol(rt: &impl Abort, alloc: Global) -> Vec<u8> {
    let settings = flat(Mode::M2k, Shape::Qpsk, Rate::R1of2);
    let word = OuterTx::new(alloc)
        .expect(rt, "memory")
        .take(&Packet::null());
    let mut symbols = first_symbols(rt, alloc, &settings, &[false], (&word, &[]));
    symbols.pop().expect(rt, "a symbol")
}

// The cells in these bytes.
fn cells_of(rt: &impl Abort, alloc: Global, bytes: &[u8]) -> Vec<Cell> {
    let mut cells = Vec::new(alloc);
    for five in bytes.chunks(5) {
        assert!(rt; five.len() == 5);
        let re = i16::from_be_bytes([five[0], five[1]]);
        let im = i16::from_be_bytes([five[2], five[3]]);
        cells.push(Cell { re, im }).expect(rt, "memory");
    }
    cells
}

// Whether a symbol taken in pieces of this size has the cells in its bytes, and full weight for each.
fn is_taken(rt: &impl Abort, alloc: Global, bytes: &[u8], size: usize) -> bool {
    let mut symbol = SymbolIn::<Mode2k>::new(alloc).expect(rt, "memory");
    take_in_pieces(rt, &mut symbol, bytes, size);
    symbol.cells() == cells_of(rt, alloc, bytes).as_slice()
        && symbol.weights() == [15u8; 1705].as_slice()
}

// Its cells and their weights; pieces of four bytes split a cell from its weight.
#[test]
fn a_symbol_of_null_packets_in_pieces(rt: HostRuntime) {
    let alloc = rt.alloc();
    let bytes = null_symbol(&rt, alloc);
    let begins = [0xAAu8, 0xAB, 0, 0, 15, 0xD2, 0xBF, 0x2D, 0x41, 15];
    assert!(&rt; bytes.starts_with(begins.as_slice()));
    for size in [1usize, 3, 4, 8525] {
        assert!(&rt; is_taken(&rt, alloc, &bytes, size));
    }
}

// A symbol of random cells, two in five of which have a weight byte above 15.
fn drawn_symbol(state: &mut u32, bytes: &mut [u8]) {
    for (i, byte) in bytes.iter_mut().enumerate() {
        let drawn = next_byte(state);
        *byte = if i % 5 == 4 && drawn < 192 {
            drawn % 20
        } else {
            drawn
        };
    }
}

// The costs as the digits of a number in base 31, modulo 2^32.
fn with_pairs(sum: u32, pairs: &[CostPair]) -> u32 {
    pairs.iter().fold(sum, |sum, pair| {
        let mut sum = sum;
        for cost in [pair.x0, pair.x1, pair.y0, pair.y1] {
            sum = sum.wrapping_mul(31).wrapping_add(cost as u32);
        }
        sum
    })
}

fn sum_of(costs: &[Costs]) -> u32 {
    costs
        .iter()
        .fold(0, |sum, (hp, lp)| with_pairs(with_pairs(sum, hp), lp))
}

// Four symbols of random bytes.
fn drawn_symbols(rt: &impl Abort, alloc: Global, mode: Mode) -> Vec<Vec<u8>> {
    let mut state = 7;
    let mut symbols = Vec::new(alloc);
    for _ in 0..4u8 {
        let mut bytes = vec![in alloc; 0u8; 5 * mode.carriers() as usize].expect(rt, "memory");
        drawn_symbol(&mut state, &mut bytes);
        symbols.push(bytes).expect(rt, "memory");
    }
    symbols
}

// The cells of a symbol and their weights are those that are read one by one.
fn read_twice<M: Carriers>(rt: &impl Abort, alloc: Global, bytes: &[u8]) {
    let mut symbol = SymbolIn::<M>::new(alloc).expect(rt, "memory");
    take_in_pieces(rt, &mut symbol, bytes, 1880);
    let mut cells = vec![in alloc; Cell { re: 0, im: 0 }; M::K as usize].expect(rt, "memory");
    let mut weights = vec![in alloc; 0u8; M::K as usize].expect(rt, "memory");
    assert!(rt; bytes.len() == 5 * cells.len());
    plain::read_symbol(bytes, &mut cells, &mut weights);
    assert!(rt; symbol.cells() == cells.as_slice());
    assert!(rt; symbol.weights() == weights.as_slice());
}

#[test]
fn cells_six_at_a_time(rt: HostRuntime) {
    let alloc = rt.alloc();
    for bytes in drawn_symbols(&rt, alloc, Mode::M2k) {
        read_twice::<Mode2k>(&rt, alloc, &bytes);
    }
    for bytes in drawn_symbols(&rt, alloc, Mode::M8k) {
        read_twice::<Mode8k>(&rt, alloc, &bytes);
    }
}

// The same costs from one receiving side whose parameters change from symbol to symbol.
#[test]
fn costs_of_changing_parameters(rt: HostRuntime) -> Result<(), Fail> {
    let alloc = rt.alloc();
    let one = flat(Mode::M2k, Shape::Qpsk, Rate::R1of2);
    let two = two_streams(Shape::Qam64, Hierarchy::Alpha4, (Rate::R2of3, Rate::R3of4));
    let symbols = drawn_symbols(&rt, alloc, Mode::M2k);
    let mut rx = InnerRx::<Mode2k>::new(alloc, &one)?;
    let first = costs_by(&rt, alloc, &two, &mut rx, &symbols, 7);
    let second = costs_by(&rt, alloc, &one, &mut rx, &symbols, 7);
    let third = costs_by(&rt, alloc, &two, &mut rx, &symbols, 7);
    let sums = [sum_of(&first), sum_of(&second), sum_of(&third)];
    assert!(&rt; sums == [1262352538, 2726650226, 1262352538]);
    Ok(())
}

// The content after the pairs of a symbol.
const BEHIND: CostPair = CostPair {
    x0: 1,
    x1: 2,
    y0: 3,
    y1: 4,
};

// The cost pairs of both streams in the whole symbol taken, in one call.
fn pairs_at_once<M: Carriers>(
    rt: &impl Abort,
    alloc: Global,
    settings: &Settings,
    rx: &mut InnerRx<M>,
    symbol: &SymbolIn<M>,
    l: u8,
) -> Costs
    requires mode { settings.now.mode ≡ M.MODE }
    requires rx { rx.old.mode ≡ settings.now.mode }
    requires whole { length symbol.now ≡ 5 * M.K }
    ensures { rx.new.mode ≡ settings.now.mode }
{
    let entry = settings.top();
    let hp_steps = rx.steps(&entry, Stream::Hp) as usize;
    let lp_steps = rx.steps(&entry, Stream::Lp) as usize;
    let mut hp = vec![in alloc; BEHIND; hp_steps + 1].expect(rt, "memory");
    let mut lp = vec![in alloc; BEHIND; lp_steps + 1].expect(rt, "memory");
    assert!(rt; l < 68);
    rx.symbol_pairs(
        &entry,
        symbol.cells(),
        symbol.weights(),
        l,
        &mut hp,
        &mut lp,
    );
    assert!(rt; hp.pop() == Some(BEHIND) && lp.pop() == Some(BEHIND));
    (hp, lp)
}

// The two calls agree on a symbol.
fn agree_on<M: Carriers>(
    rt: &impl Abort,
    alloc: Global,
    settings: &Settings,
    rx: &mut InnerRx<M>,
    bytes: &[u8],
    l: u8,
)
    requires mode { settings.now.mode ≡ M.MODE }
    requires rx { rx.old.mode ≡ settings.now.mode }
    ensures { rx.new.mode ≡ settings.now.mode }
{
    let mut symbol = SymbolIn::<M>::new(alloc).expect(rt, "memory");
    take_in_pieces(rt, &mut symbol, bytes, 34085);
    let hp = pairs_of(rt, alloc, settings, rx, &symbol, l, Stream::Hp);
    let lp = pairs_of(rt, alloc, settings, rx, &symbol, l, Stream::Lp);
    let (hp_at_once, lp_at_once) = pairs_at_once(rt, alloc, settings, rx, &symbol, l);
    assert!(rt; hp.as_slice() == hp_at_once.as_slice());
    assert!(rt; lp.as_slice() == lp_at_once.as_slice());
}

// The pairs of both streams in one call are those of each by itself, step by step: one stream and two, at each rate,
// with four steps, three and one in a word, and with words that end within a step.
#[test]
fn both_streams_at_once(rt: HostRuntime) -> Result<(), Fail> {
    let alloc = rt.alloc();
    let one = flat(Mode::M2k, Shape::Qam64, Rate::R2of3);
    let two = two_streams(Shape::Qam64, Hierarchy::Alpha2, (Rate::R5of6, Rate::R3of4));
    let three = two_streams(Shape::Qam16, Hierarchy::Alpha1, (Rate::R1of2, Rate::R7of8));
    let mut rx = InnerRx::<Mode2k>::new(alloc, &one)?;
    for (l, bytes) in drawn_symbols(&rt, alloc, Mode::M2k).iter().enumerate() {
        let l = (l % 68) as u8;
        agree_on(&rt, alloc, &one, &mut rx, bytes, l);
        agree_on(&rt, alloc, &two, &mut rx, bytes, l);
        agree_on(&rt, alloc, &three, &mut rx, bytes, l);
    }
    Ok(())
}

// Settings, and the sum of the costs.
const COSTS: [(&str, u32); 4] = [
    (
        "mode = \"2k\"\nconstellation = \"qpsk\"\nrate_hp = \"1/2\"\nguard = \"1/32\"\n",
        2726650226,
    ),
    (
        "mode = \"2k\"\nconstellation = \"64qam\"\nhierarchy = \"4\"\nrate_hp = \"2/3\"\nrate_lp = \"3/4\"\nguard = \"1/32\"\n",
        1262352538,
    ),
    (
        "mode = \"8k\"\nconstellation = \"16qam\"\nhierarchy = \"1\"\nrate_hp = \"7/8\"\nrate_lp = \"5/6\"\nguard = \"1/32\"\n",
        3677345420,
    ),
    (
        "mode = \"8k\"\nconstellation = \"64qam\"\nrate_hp = \"3/4\"\nguard = \"1/32\"\n",
        75597504,
    ),
];

// Random cells with random weights, taken in pieces of seven bytes, have the costs of another receiver.
#[test]
fn costs_by_weights_of_another_receiver(rt: HostRuntime) {
    let alloc = rt.alloc();
    for (text, sum) in COSTS {
        let settings = Settings::read(alloc, text.as_bytes()).expect(&rt, "the settings");
        let symbols = drawn_symbols(&rt, alloc, settings.mode);
        assert!(&rt; sum_of(&costs_of(&rt, alloc, &settings, &symbols, 7)) == sum);
    }
}
