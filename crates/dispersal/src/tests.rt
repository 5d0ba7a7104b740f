// The dispersal against the standard's vectors.

use crate::table::sequence;
use crate::{Dispersal, Sequence, undo};
use std::test::Fail;
use ts_packet::Packet;

#[test]
fn sequence_begins_as_the_standard_gives_it(rt: HostRuntime) -> Result<(), Fail> {
    let begins = [
        0x03u8, 0xF6, 0x08, 0x34, 0x30, 0xB8, 0xA3, 0x93, 0xC9, 0x68, 0xB7, 0x73,
    ];
    assert_eq!(rt; &sequence()[..12], begins.as_slice());
    let mut register = Sequence::start();
    for place in 0..1503usize {
        let made = register.next_byte();
        assert_eq!(rt; made, sequence()[place]);
    }
    Ok(())
}

#[test]
fn nine_null_packets_are_dispersed_and_come_back(rt: HostRuntime) -> Result<(), Fail> {
    let mut dispersal = Dispersal::start();
    let packet = Packet::null();
    let first = dispersal.apply(&packet);
    let begins = [
        0xB8u8, 0x1C, 0x09, 0x18, 0xCB, 0xCF, 0x47, 0x5C, 0x6C, 0x36, 0x97, 0x48, 0x8C,
    ];
    assert_eq!(rt; &first[..13], begins.as_slice());
    for phase in 1..8u8 {
        let word = dispersal.apply(&packet);
        assert_eq!(rt; word[0], 0x47);
        assert_eq!(rt;
            undo(phase, &word).bytes().as_slice(),
            packet.bytes().as_slice()
        );
    }
    let ninth = dispersal.apply(&packet);
    assert_eq!(rt; ninth.as_slice(), first.as_slice());
    Ok(())
}
