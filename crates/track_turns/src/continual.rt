// The comb points of the continual pilots (EN 300 744, 4.5.4).
ghost use Rattle.std.specs.Prelude.{◌≡◌, ℕ, ◌<◌, ◌≤◌, length, get_or};
ghost use Rattle.tracking.specs.Comb.{continual_points, points};

use mode_set::Mode;

// Those of the 2K mode, a third of the carriers' numbers, rising.
#[rattlefmt::skip]
static CONTINUAL_2K: [u16; 45] = [
    0, 16, 18, 29, 47, 52, 64, 67, 85, 93, 94, 111, 144, 150, 161, 175, 177, 206, 212, 238, 253, 255, 260,
    268, 291, 296, 306, 313, 314, 323, 328, 350, 367, 369, 370, 379, 380, 382, 402, 423, 441, 459, 497,
    561, 568,
];

// Those of the 8K mode.
#[rattlefmt::skip]
static CONTINUAL_8K: [u16; 177] = [
    0, 16, 18, 29, 47, 52, 64, 67, 85, 93, 94, 111, 144, 150, 161, 175, 177, 206, 212, 238, 253, 255, 260,
    268, 291, 296, 306, 313, 314, 323, 328, 350, 367, 369, 370, 379, 380, 382, 402, 423, 441, 459, 497,
    561, 568, 584, 586, 597, 615, 620, 632, 635, 653, 661, 662, 679, 712, 718, 729, 743, 745, 774, 780,
    806, 821, 823, 828, 836, 859, 864, 874, 881, 882, 891, 896, 918, 935, 937, 938, 947, 948, 950, 970,
    991, 1009, 1027, 1065, 1129, 1136, 1152, 1154, 1165, 1183, 1188, 1200, 1203, 1221, 1229, 1230, 1247,
    1280, 1286, 1297, 1311, 1313, 1342, 1348, 1374, 1389, 1391, 1396, 1404, 1427, 1432, 1442, 1449, 1450,
    1459, 1464, 1486, 1503, 1505, 1506, 1515, 1516, 1518, 1538, 1559, 1577, 1595, 1633, 1697, 1704, 1720,
    1722, 1733, 1751, 1756, 1768, 1771, 1789, 1797, 1798, 1815, 1848, 1854, 1865, 1879, 1881, 1910, 1916,
    1942, 1957, 1959, 1964, 1972, 1995, 2000, 2010, 2017, 2018, 2027, 2032, 2054, 2071, 2073, 2074, 2083,
    2084, 2086, 2106, 2127, 2145, 2163, 2201, 2265, 2272,
];

/// The comb points of the continual pilots, rising: 45 in the 2K mode, 177 in the 8K mode. Point j is carrier
/// 3 j.
pub fn continual_points(mode: Mode) -> &'static [u16]
    ensures is { result.now ≡ continual_points mode }
    ensures some { 1 ≤ length result.now }
    ensures few { length result.now ≤ 177 }
    ensures within { (i : ℕ) → i < length result.now → get_or result.now i 0 < points mode }
{
    match mode {
        Mode::M2k => &CONTINUAL_2K,
        Mode::M8k => &CONTINUAL_8K,
    }
}
