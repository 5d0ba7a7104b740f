// The payload carriers of every symbol of a frame, in both modes.
use mode_set::Mode;
use pilots::CarrierKind::Payload;
use pilots::{carrier, kind};
use std::process::Abort;
use std::rt::HostRuntime;

// In each of the 68 symbols the payload carriers are numbered without a gap, and as many as the standard says.
fn are_numbered(rt: &impl Abort, mode: Mode, carriers: u32, payload: u32) {
    for l in 0..68u8 {
        let mut next = 0;
        for k in 0..carriers {
            assert!(rt; k < mode.carriers());
            if let Payload(q) = kind(mode, l, k) {
                assert!(rt; q == next && q < mode.payload());
                assert!(rt; carrier(mode, l, q) == k);
                next = q + 1;
            }
        }
        assert!(rt; next == payload);
    }
}

#[test]
fn payload_carriers_of_a_frame(rt: HostRuntime) {
    are_numbered(&rt, Mode::M2k, 1705, 1512);
    are_numbered(&rt, Mode::M8k, 6817, 6048);
}
