// Transport packets.
use ts_packet::Packet;

// The first five bytes of a packet.
fn head(packet: &Packet) -> [u8; 5] {
    let bytes = packet.bytes();
    [bytes[0], bytes[1], bytes[2], bytes[3], bytes[4]]
}

#[test]
fn null_packet_is_marked(rt: HostRuntime) {
    let mut packet = Packet::null();
    assert!(rt; head(&packet) == [0x47, 0x1F, 0xFF, 0x10, 0xFF]);
    packet.mark_error();
    assert!(rt; head(&packet) == [0x47, 0x9F, 0xFF, 0x10, 0xFF]);
}

// Whether 188 bytes with this first one are a packet.
fn is_read(first: u8) -> bool {
    let mut bytes = [0x47u8; 188];
    bytes[0] = first;
    Packet::read(&bytes).is_ok()
}

#[test]
fn packets_begin_with_the_sync_byte(rt: HostRuntime) {
    assert!(rt; is_read(0x47) && !is_read(0xB8));
}
