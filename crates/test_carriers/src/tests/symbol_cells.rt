// The first three symbols of a transmission, from its packets to its cells, against the cells of another modulator.
use super::sending::first_symbols;
use mode_set::Settings;
use outer_chain::OuterTx;
use std::alloc::Global;
use std::process::Abort;
use std::rt::HostRuntime;
use ts_packet::Packet;

// Byte j of packet i is 37 i + 11 j + (j² mod 7) (i + 1) + salt modulo 256, after the sync byte.
fn packet_byte(i: u8, j: u8, salt: u8) -> u8 {
    let square = (j % 7).wrapping_mul(j % 7) % 7;
    i.wrapping_mul(37)
        .wrapping_add(j.wrapping_mul(11))
        .wrapping_add(square.wrapping_mul(i.wrapping_add(1)))
        .wrapping_add(salt)
}

fn packet_bytes(i: u8, salt: u8) -> [u8; 188] {
    let mut bytes = [0x47u8; 188];
    for j in 1..188u8 {
        bytes[j as usize] = packet_byte(i, j, salt);
    }
    bytes
}

// The coded bytes of the packets also given to the other modulator, enough for three symbols of any settings.
fn coded_bytes(rt: &impl Abort, alloc: Global, salt: u8) -> Vec<u8> {
    let mut outer = OuterTx::new(alloc).expect(rt, "memory");
    let mut bytes = Vec::new(alloc);
    for i in 0..60u8 {
        let packet = Packet::read(&packet_bytes(i, salt)).expect(rt, "a packet");
        bytes
            .extend_from_slice(&outer.take(&packet))
            .expect(rt, "memory");
    }
    bytes
}

// The bytes of the symbols as the digits of a number in base 31, modulo 2^32.
fn sum_of(symbols: &[Vec<u8>]) -> u32 {
    let mut sum = 0u32;
    for bytes in symbols {
        for byte in bytes {
            sum = sum.wrapping_mul(31).wrapping_add(*byte as u32);
        }
    }
    sum
}

// Settings, and the sum of the first three symbols.
const CASES: [(&str, u32); 18] = [
    (
        "mode = \"2k\"\nconstellation = \"qpsk\"\nhierarchy = \"none\"\nrate_hp = \"1/2\"\nguard = \"1/32\"\n",
        2066603759,
    ),
    (
        "mode = \"2k\"\nconstellation = \"16qam\"\nhierarchy = \"none\"\nrate_hp = \"2/3\"\nguard = \"1/16\"\ncell_id = 65535\n",
        4132391269,
    ),
    (
        "mode = \"2k\"\nconstellation = \"16qam\"\nhierarchy = \"1\"\nrate_hp = \"3/4\"\nrate_lp = \"5/6\"\nguard = \"1/8\"\ncell_id = 43981\n",
        1708986249,
    ),
    (
        "mode = \"2k\"\nconstellation = \"16qam\"\nhierarchy = \"2\"\nrate_hp = \"5/6\"\nrate_lp = \"2/3\"\nguard = \"1/4\"\ncell_id = 0\n",
        2212177677,
    ),
    (
        "mode = \"2k\"\nconstellation = \"16qam\"\nhierarchy = \"4\"\nrate_hp = \"7/8\"\nrate_lp = \"7/8\"\nguard = \"1/32\"\ncell_id = 4660\n",
        687970301,
    ),
    (
        "mode = \"2k\"\nconstellation = \"64qam\"\nhierarchy = \"none\"\nrate_hp = \"1/2\"\nguard = \"1/16\"\n",
        3903307431,
    ),
    (
        "mode = \"2k\"\nconstellation = \"64qam\"\nhierarchy = \"1\"\nrate_hp = \"2/3\"\nrate_lp = \"1/2\"\nguard = \"1/8\"\ncell_id = 65535\n",
        107775759,
    ),
    (
        "mode = \"2k\"\nconstellation = \"64qam\"\nhierarchy = \"2\"\nrate_hp = \"3/4\"\nrate_lp = \"5/6\"\nguard = \"1/4\"\ncell_id = 43981\n",
        1415201545,
    ),
    (
        "mode = \"2k\"\nconstellation = \"64qam\"\nhierarchy = \"4\"\nrate_hp = \"5/6\"\nrate_lp = \"2/3\"\nguard = \"1/32\"\ncell_id = 0\n",
        554663886,
    ),
    (
        "mode = \"8k\"\nconstellation = \"qpsk\"\nhierarchy = \"none\"\nrate_hp = \"7/8\"\nguard = \"1/16\"\ncell_id = 4660\n",
        1497323584,
    ),
    (
        "mode = \"8k\"\nconstellation = \"16qam\"\nhierarchy = \"none\"\nrate_hp = \"1/2\"\nguard = \"1/8\"\n",
        3714505690,
    ),
    (
        "mode = \"8k\"\nconstellation = \"16qam\"\nhierarchy = \"1\"\nrate_hp = \"2/3\"\nrate_lp = \"1/2\"\nguard = \"1/4\"\ncell_id = 65535\n",
        3473614346,
    ),
    (
        "mode = \"8k\"\nconstellation = \"16qam\"\nhierarchy = \"2\"\nrate_hp = \"3/4\"\nrate_lp = \"5/6\"\nguard = \"1/32\"\ncell_id = 43981\n",
        464339759,
    ),
    (
        "mode = \"8k\"\nconstellation = \"16qam\"\nhierarchy = \"4\"\nrate_hp = \"5/6\"\nrate_lp = \"2/3\"\nguard = \"1/16\"\ncell_id = 0\n",
        1124016755,
    ),
    (
        "mode = \"8k\"\nconstellation = \"64qam\"\nhierarchy = \"none\"\nrate_hp = \"7/8\"\nguard = \"1/8\"\ncell_id = 4660\n",
        2841195205,
    ),
    (
        "mode = \"8k\"\nconstellation = \"64qam\"\nhierarchy = \"1\"\nrate_hp = \"1/2\"\nrate_lp = \"3/4\"\nguard = \"1/4\"\n",
        46304350,
    ),
    (
        "mode = \"8k\"\nconstellation = \"64qam\"\nhierarchy = \"2\"\nrate_hp = \"2/3\"\nrate_lp = \"1/2\"\nguard = \"1/32\"\ncell_id = 65535\n",
        2246823937,
    ),
    (
        "mode = \"8k\"\nconstellation = \"64qam\"\nhierarchy = \"4\"\nrate_hp = \"3/4\"\nrate_lp = \"5/6\"\nguard = \"1/16\"\ncell_id = 43981\n",
        2117276077,
    ),
];

#[test]
fn cells_of_another_modulator(rt: HostRuntime) {
    let alloc = rt.alloc();
    let hp = coded_bytes(&rt, alloc, 1);
    let lp = coded_bytes(&rt, alloc, 100);
    for (text, sum) in CASES {
        let settings = Settings::read(alloc, text.as_bytes()).expect(&rt, "the settings");
        let symbols = first_symbols(&rt, alloc, &settings, &[false, true, false], (&hp, &lp));
        assert!(&rt; sum_of(&symbols) == sum);
    }
}
