// Bits of the inner code.
use conv_code::{Encoder, branch};

#[test]
fn coded_bits(rt: HostRuntime) {
    let mut encoder = Encoder::start();
    let mut state = 0u8;
    let expected = [
        (true, true),
        (true, false),
        (true, true),
        (true, true),
        (false, false),
        (false, true),
        (true, true),
    ];
    for k in 0..7usize {
        let bit = k == 0;
        assert!(rt; state < 64);
        let coded = [encoder.step(bit), branch(state, bit)];
        assert!(rt; coded == [expected[k]; 2], "bit {k}");
        state = state / 2 + if bit { 32 } else { 0 };
    }
}

// The first bytes of the coded null packet: E2 BE AC 00 in bits X Y X Y ..
#[test]
fn coded_bytes(rt: HostRuntime) {
    let mut encoder = Encoder::start();
    let coded = [encoder.step_byte(0xB8), encoder.step_byte(0x00)];
    let expected = [(0b1101_1111, 0b1000_0110), (0b1110_0000, 0b0010_0000)];
    assert_eq!(rt; coded, expected);
}
