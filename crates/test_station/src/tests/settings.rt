// Each trait at each of its types, and the tables by their values.
ghost use Rattle.std.specs.Prelude.{◌≡◌, ◌≤◌, ◌*◌};
ghost use Rattle.mode_set.specs.StreamTable.{label_bits};

use mode_set::{
    Carriers, Constellation, Mode, Mode2k, Mode8k, Qam16A1, Qam16A2, Qam16A4, Qam64A1, Qam64A2,
    Qam64A4, Qpsk, Rate, Settings, Shape, Stream,
};
use test_tools::flat;

// A generic call uses the mode's numbers by the trait's laws.
fn symbol_bytes<M: Carriers>(settings: &Settings) -> (u32, u32)
    requires mode { settings.now.mode ≡ M.MODE }
    ensures bytes { result.0 ≤ 27268 }
    ensures coded { result.1 ≤ M.NMAX * label_bits settings.now.shape }
    ensures blocks { M.NMAX ≡ 126 * M.BLOCKS }
{
    (4 * M::K, settings.coded(Stream::Hp))
}

#[test]
fn carriers_of_each_mode(rt: HostRuntime) {
    let small = symbol_bytes::<Mode2k>(&flat(Mode::M2k, Shape::Qpsk, Rate::R1of2));
    let large = symbol_bytes::<Mode8k>(&flat(Mode::M8k, Shape::Qam64, Rate::R7of8));
    assert_eq!(rt; (small, large), ((6820, 3024), (27268, 36288)));
    assert_eq!(rt;
        (Mode2k::NR, Mode2k::BLOCKS, Mode8k::NR, Mode8k::BLOCKS),
        (11, 12, 13, 48)
    );
}

// The number of levels, the outermost and the innermost.
fn ends(levels: &[u16]) -> (usize, u16, u16) {
    let outer = levels.first().copied().unwrap_or(0);
    let inner = levels.last().copied().unwrap_or(0);
    (levels.len(), outer, inner)
}

// The bits of a label, and the levels.
fn row<C: Constellation>() -> (u8, (usize, u16, u16)) {
    (C::V, ends(C::levels()))
}

#[test]
fn levels_of_each_constellation(rt: HostRuntime) {
    assert_eq!(rt; row::<Qpsk>(), (2, (1, 11585, 11585)));
    assert_eq!(rt;
        [row::<Qam16A1>(), row::<Qam16A2>(), row::<Qam16A4>()],
        [
            (4, (2, 15543, 5181)),
            (4, (2, 14654, 7327)),
            (4, (2, 13632, 9088)),
        ]
    );
    assert_eq!(rt;
        [row::<Qam64A1>(), row::<Qam64A2>(), row::<Qam64A4>()],
        [
            (6, (4, 17697, 2528)),
            (6, (4, 16921, 4230)),
            (6, (4, 15766, 6306)),
        ]
    );
}

// The outer words of a super-frame of one stream.
fn words(mode: Mode, shape: Shape, rate: Rate) -> u32
    ensures few { result ≤ 5292 }
{
    flat(mode, shape, rate).words_per_super_frame(Stream::Hp)
}

// EN 300 744, 4.7: the outer words of a super-frame in 2K, and in 8K four times as many.
#[test]
fn words_of_a_super_frame(rt: HostRuntime) {
    for (shape, rate, number) in [
        (Shape::Qpsk, Rate::R1of2, 252),
        (Shape::Qpsk, Rate::R2of3, 336),
        (Shape::Qpsk, Rate::R3of4, 378),
        (Shape::Qpsk, Rate::R5of6, 420),
        (Shape::Qpsk, Rate::R7of8, 441),
        (Shape::Qam16, Rate::R1of2, 504),
        (Shape::Qam16, Rate::R2of3, 672),
        (Shape::Qam16, Rate::R3of4, 756),
        (Shape::Qam16, Rate::R5of6, 840),
        (Shape::Qam16, Rate::R7of8, 882),
        (Shape::Qam64, Rate::R1of2, 756),
        (Shape::Qam64, Rate::R2of3, 1008),
        (Shape::Qam64, Rate::R3of4, 1134),
        (Shape::Qam64, Rate::R5of6, 1260),
        (Shape::Qam64, Rate::R7of8, 1323),
    ] {
        let small = words(Mode::M2k, shape, rate);
        let large = words(Mode::M8k, shape, rate);
        assert_eq!(rt; (small, large), (number, 4 * small));
    }
}
