// Positions against a plain demultiplexer followed by plain bit interleavers.
ghost use Rattle.std.specs.Prelude.{◌≡◌, IsTrue, length};
ghost use Rattle.mode_set.specs.Kept.{is_flat, is_qpsk};
ghost use Rattle.mode_set.specs.StreamTable.{has_stream, width};

use bit_interleave::{bit_at, place};
use mode_set::{Carriers, Hierarchy, Mode8k, Shape, Stream};
use std::process::Abort;
use std::rt::HostRuntime;

const OFFSETS: [u32; 6] = [0, 63, 105, 42, 21, 84];

// The substreams take the bits of a stream in turn, in this order, and each block of 126 bits of a substream is
// rotated.
fn agrees(rt: &impl Abort, shape: Shape, hierarchy: Hierarchy, stream: Stream, order: &[u32])
    requires qpsk_is_flat { IsTrue (is_qpsk shape) → IsTrue (is_flat hierarchy) }
    requires exists { IsTrue (has_stream hierarchy stream) }
    requires turns { length order.now ≡ width shape hierarchy stream }
{
    for (turn, e) in order.iter().enumerate() {
        assert!(rt; *e < 6);
        for block in 0..Mode8k::BLOCKS {
            for w in 0..126u32 {
                let index = 126 * block + (w + OFFSETS[*e as usize]) % 126;
                let bit = order.len() as u32 * index + turn as u32;
                let (label_place, word) = place(shape, hierarchy, stream, bit);
                let back = bit_at(shape, hierarchy, label_place, word);
                assert!(rt;
                    (label_place as u32, word, back) == (*e, 126 * block + w, (stream, bit))
                );
            }
        }
    }
}

#[test]
fn agrees_with_two_stages(rt: HostRuntime) {
    agrees(&rt, Shape::Qpsk, Hierarchy::Flat, Stream::Hp, &[0, 1]);
    agrees(
        &rt,
        Shape::Qam16,
        Hierarchy::Flat,
        Stream::Hp,
        &[0, 2, 1, 3],
    );
    agrees(
        &rt,
        Shape::Qam64,
        Hierarchy::Flat,
        Stream::Hp,
        &[0, 2, 4, 1, 3, 5],
    );
    for hierarchy in [Hierarchy::Alpha1, Hierarchy::Alpha2, Hierarchy::Alpha4] {
        assert!(rt; hierarchy != Hierarchy::Flat);
        agrees(&rt, Shape::Qam16, hierarchy, Stream::Hp, &[0, 1]);
        agrees(&rt, Shape::Qam16, hierarchy, Stream::Lp, &[2, 3]);
        agrees(&rt, Shape::Qam64, hierarchy, Stream::Hp, &[0, 1]);
        agrees(&rt, Shape::Qam64, hierarchy, Stream::Lp, &[2, 4, 3, 5]);
    }
}
