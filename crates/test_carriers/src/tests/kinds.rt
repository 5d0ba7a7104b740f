// The kind of each carrier, and the reference sequence.
use mode_set::Mode;
use pilots::CarrierKind::{Continual, Payload, Scattered, Tps};
use pilots::{CarrierKind, carrier, kind, reference, tps_carriers};
use std::rt::HostRuntime;

// Carriers of EN 300 744, 4.5.3, 4.5.4 and 4.6, and the ends of both modes: the mode, the symbol, the
// carrier and its kind.
const KINDS: [(Mode, u8, u32, CarrierKind); 11] = [
    (Mode::M2k, 0, 0, Continual),
    (Mode::M2k, 0, 1, Payload(0)),
    (Mode::M2k, 0, 12, Scattered),
    (Mode::M2k, 0, 13, Payload(11)),
    (Mode::M2k, 0, 34, Tps),
    (Mode::M2k, 0, 48, Continual),
    (Mode::M2k, 67, 1703, Payload(1511)),
    (Mode::M2k, 3, 1704, Continual),
    (Mode::M8k, 2, 1704, Continual),
    (Mode::M8k, 65, 6815, Payload(6047)),
    (Mode::M8k, 66, 6799, Tps),
];

#[test]
fn carriers_of_the_standard(rt: HostRuntime) {
    for (mode, l, k, want) in KINDS {
        assert!(rt; l < 68 && k < mode.carriers());
        assert!(rt; kind(mode, l, k) == want, "carrier {k} of symbol {l}");
    }
    let carriers = (carrier(Mode::M2k, 0, 11), carrier(Mode::M8k, 67, 6047));
    assert!(rt; carriers == (13, 6815) && tps_carriers(Mode::M8k).len() == 68);
}

// In all symbols of a frame the payload carriers are numbered without a gap.
#[test]
fn payload_carriers_of_a_frame(rt: HostRuntime) {
    for l in 0..68u8 {
        let mut next = 0;
        for k in 0..1705u32 {
            if let Payload(q) = kind(Mode::M2k, l, k) {
                assert!(&rt; q == next && carrier(Mode::M2k, l, q) == k);
                next = q + 1;
            }
        }
        assert!(&rt; next == 1512);
    }
}

// The sequence from one index to before another: eleven ones, nine zeros, two ones, and later bits.
const RUNS: [(u32, u32, bool); 7] = [
    (0, 11, true),
    (11, 20, false),
    (20, 22, true),
    (22, 23, false),
    (34, 35, false),
    (2057, 2058, true),
    (2058, 2059, false),
];

#[test]
fn head_of_the_sequence(rt: HostRuntime) {
    for (from, end, bit) in RUNS {
        for k in from..end {
            assert!(rt; reference(k) == bit, "bit {k}");
        }
    }
}
