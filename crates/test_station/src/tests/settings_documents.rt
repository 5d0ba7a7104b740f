// Documents with the result for each: a line `== ANSWER`, then the document; `@` stands for the base.

pub(super) const BASE: &str =
    "mode = \"2k\"\nconstellation = \"qpsk\"\nrate_hp = \"1/2\"\nguard = \"1/32\"\n";

pub(super) const DOCUMENTS: &str = "\
== (M2k, Qpsk, Flat, R1of2, None, G1of32, None, Zero, 1, 1000000)\n\
@\n\
== (M8k, Qpsk, Flat, R1of2, None, G1of32, None, Zero, 1, 1000000)\n\
mode = \"8k\"\n\
constellation = \"qpsk\"\n\
rate_hp = \"1/2\"\n\
guard = \"1/32\"\n\
== (M2k, Qam16, Flat, R1of2, None, G1of32, None, Zero, 1, 1000000)\n\
mode = \"2k\"\n\
constellation = \"16qam\"\n\
rate_hp = \"1/2\"\n\
guard = \"1/32\"\n\
== (M2k, Qam64, Flat, R1of2, None, G1of32, None, Zero, 1, 1000000)\n\
mode = \"2k\"\n\
constellation = \"64qam\"\n\
rate_hp = \"1/2\"\n\
guard = \"1/32\"\n\
== (M2k, Qpsk, Flat, R2of3, None, G1of32, None, Zero, 1, 1000000)\n\
mode = \"2k\"\n\
constellation = \"qpsk\"\n\
rate_hp = \"2/3\"\n\
guard = \"1/32\"\n\
== (M2k, Qpsk, Flat, R3of4, None, G1of32, None, Zero, 1, 1000000)\n\
mode = \"2k\"\n\
constellation = \"qpsk\"\n\
rate_hp = \"3/4\"\n\
guard = \"1/32\"\n\
== (M2k, Qpsk, Flat, R5of6, None, G1of32, None, Zero, 1, 1000000)\n\
mode = \"2k\"\n\
constellation = \"qpsk\"\n\
rate_hp = \"5/6\"\n\
guard = \"1/32\"\n\
== (M2k, Qpsk, Flat, R7of8, None, G1of32, None, Zero, 1, 1000000)\n\
mode = \"2k\"\n\
constellation = \"qpsk\"\n\
rate_hp = \"7/8\"\n\
guard = \"1/32\"\n\
== (M2k, Qpsk, Flat, R1of2, None, G1of16, None, Zero, 1, 1000000)\n\
mode = \"2k\"\n\
constellation = \"qpsk\"\n\
rate_hp = \"1/2\"\n\
guard = \"1/16\"\n\
== (M2k, Qpsk, Flat, R1of2, None, G1of8, None, Zero, 1, 1000000)\n\
mode = \"2k\"\n\
constellation = \"qpsk\"\n\
rate_hp = \"1/2\"\n\
guard = \"1/8\"\n\
== (M2k, Qpsk, Flat, R1of2, None, G1of4, None, Zero, 1, 1000000)\n\
mode = \"2k\"\n\
constellation = \"qpsk\"\n\
rate_hp = \"1/2\"\n\
guard = \"1/4\"\n\
== (M8k, Qam64, Alpha1, R2of3, Some(R3of4), G1of4, None, Zero, 1, 1000000)\n\
mode = \"8k\"\n\
constellation = \"64qam\"\n\
hierarchy = \"1\"\n\
rate_hp = \"2/3\"\n\
rate_lp = \"3/4\"\n\
guard = \"1/4\"\n\
== (M8k, Qam64, Alpha2, R2of3, Some(R3of4), G1of4, None, Zero, 1, 1000000)\n\
mode = \"8k\"\n\
constellation = \"64qam\"\n\
hierarchy = \"2\"\n\
rate_hp = \"2/3\"\n\
rate_lp = \"3/4\"\n\
guard = \"1/4\"\n\
== (M8k, Qam64, Alpha4, R2of3, Some(R3of4), G1of4, None, Zero, 1, 1000000)\n\
mode = \"8k\"\n\
constellation = \"64qam\"\n\
hierarchy = \"4\"\n\
rate_hp = \"2/3\"\n\
rate_lp = \"3/4\"\n\
guard = \"1/4\"\n\
== (M8k, Qam64, Alpha2, R2of3, Some(R1of2), G1of4, None, Zero, 1, 1000000)\n\
mode = \"8k\"\n\
constellation = \"64qam\"\n\
hierarchy = \"2\"\n\
rate_hp = \"2/3\"\n\
rate_lp = \"1/2\"\n\
guard = \"1/4\"\n\
== (M8k, Qam64, Alpha2, R2of3, Some(R2of3), G1of4, None, Zero, 1, 1000000)\n\
mode = \"8k\"\n\
constellation = \"64qam\"\n\
hierarchy = \"2\"\n\
rate_hp = \"2/3\"\n\
rate_lp = \"2/3\"\n\
guard = \"1/4\"\n\
== (M8k, Qam64, Alpha2, R2of3, Some(R5of6), G1of4, None, Zero, 1, 1000000)\n\
mode = \"8k\"\n\
constellation = \"64qam\"\n\
hierarchy = \"2\"\n\
rate_hp = \"2/3\"\n\
rate_lp = \"5/6\"\n\
guard = \"1/4\"\n\
== (M8k, Qam64, Alpha2, R2of3, Some(R7of8), G1of4, None, Zero, 1, 1000000)\n\
mode = \"8k\"\n\
constellation = \"64qam\"\n\
hierarchy = \"2\"\n\
rate_hp = \"2/3\"\n\
rate_lp = \"7/8\"\n\
guard = \"1/4\"\n\
== (M2k, Qpsk, Flat, R1of2, None, G1of32, None, Zero, 1, 1000000)\n\
@\n\
hierarchy = \"none\"\n\
== (M2k, Qpsk, Flat, R1of2, None, G1of32, Some(0), Zero, 1, 1000000)\n\
@\n\
cell_id = 0\n\
== (M2k, Qpsk, Flat, R1of2, None, G1of32, Some(65535), Zero, 1, 1000000)\n\
@\n\
cell_id = 65535\n\
== (M2k, Qpsk, Flat, R1of2, None, G1of32, None, Any, 1, 1000000)\n\
@\n\
start = \"any\"\n\
== (M2k, Qpsk, Flat, R1of2, None, G1of32, None, Zero, 1, 1000000)\n\
@\n\
start = \"zero\"\n\
== (M2k, Qpsk, Flat, R1of2, None, G1of32, None, Zero, 1, 1000000)\n\
@\n\
workers = 1\n\
== (M2k, Qpsk, Flat, R1of2, None, G1of32, None, Zero, 16, 1000000)\n\
@\n\
workers = 16\n\
== (M2k, Qpsk, Flat, R1of2, None, G1of32, None, Zero, 1, 1)\n\
@\n\
max_symbols = 1\n\
== (M2k, Qpsk, Flat, R1of2, None, G1of32, None, Zero, 1, 4294967295)\n\
@\n\
max_symbols = 4294967295\n\
== (M2k, Qpsk, Flat, R1of2, None, G1of32, None, Zero, 1, 1000000)\n\
# comment\n\
\n\
\x20 mode=\"2k\"# end\n\
\tconstellation =   'qpsk'\n\
\"rate_hp\" = \"1/2\"\n\
'guard' = \"1\\u002F32\"\n\
\n\
== (M2k, Qpsk, Flat, R1of2, None, G1of32, Some(15), Any, 16, 1000)\n\
workers = 0x10\n\
mode = \"2k\"\n\
guard = \"1/32\"\n\
rate_hp = \"1/2\"\n\
constellation = \"qpsk\"\n\
max_symbols = +1_000\n\
cell_id = 0b1111\n\
start = \"any\"\n\
== (M2k, Qpsk, Flat, R1of2, None, G1of32, None, Any, 1, 1000000)\n\
@\n\
start = \"\"\"\n\
any\"\"\"\n\
== NotToml\n\
mode =\n\
== NotToml\n\
@\n\
mode = \"2k\"\n\
== NotToml\n\
@\n\
workers = 9223372036854775808\n\
== NotToml\n\
mode = \"2k\" guard = \"1/32\"\n\
== NotToml\n\
@\n\
cell_id = 010\n\
== NotToml\n\
@\n\
workers\n\
== Unknown(0)\n\
@\n\
colour = \"red\"\n\
== Unknown(4)\n\
@\n\
zeta = 1\n\
== Unknown(0)\n\
@\n\
Mode = \"2k\"\n\
== Unknown(4)\n\
@\n\
workers2 = 1\n\
== Unknown(0)\n\
@\n\
\"\" = 1\n\
== Unknown(1)\n\
@\n\
[extra]\n\
mode = 1\n\
== Unknown(3)\n\
@\n\
[[plans]]\n\
after = 1\n\
constellation = \"qpsk\"\n\
rate_hp = \"1/2\"\n\
== Unknown(0)\n\
beta = 1\n\
alpha = 2\n\
== Unknown(3)\n\
@\n\
hop = 1\n\
hierarchy = \"9\"\n\
== Unknown(0)\n\
mode = 5\n\
modf = 1\n\
modd = 1\n\
== Unknown(4)\n\
@\n\
start.from = 1\n\
stars = 2\n\
== Unknown(11)\n\
cell_id = 1\n\
constellation = \"qpsk\"\n\
guard = \"1/4\"\n\
hierarchy = \"none\"\n\
max_symbols = 1\n\
mode = \"2k\"\n\
plan = 1\n\
rate_hp = \"1/2\"\n\
rate_lp = \"1/2\"\n\
start = \"any\"\n\
workers = 1\n\
x = 1\n\
== Missing(Mode)\n\
== Missing(Mode)\n\
# nothing\n\
== Missing(Mode)\n\
\x20\n\
\t\n\
== Missing(Mode)\n\
constellation = \"qpsk\"\n\
rate_hp = \"1/2\"\n\
guard = \"1/32\"\n\
== Missing(Constellation)\n\
mode = \"2k\"\n\
rate_hp = \"1/2\"\n\
guard = \"1/32\"\n\
== Missing(RateHp)\n\
mode = \"2k\"\n\
constellation = \"qpsk\"\n\
guard = \"1/32\"\n\
== Missing(Guard)\n\
mode = \"2k\"\n\
constellation = \"qpsk\"\n\
rate_hp = \"1/2\"\n\
== Missing(Mode)\n\
guard = \"1/32\"\n\
rate_hp = \"1/2\"\n\
== Value(Mode)\n\
mode = \"4k\"\n\
constellation = \"qpsk\"\n\
rate_hp = \"1/2\"\n\
guard = \"1/32\"\n\
== Value(Mode)\n\
mode = 2\n\
constellation = \"qpsk\"\n\
rate_hp = \"1/2\"\n\
guard = \"1/32\"\n\
== Value(Mode)\n\
mode = \"2K\"\n\
constellation = \"qpsk\"\n\
rate_hp = \"1/2\"\n\
guard = \"1/32\"\n\
== Value(Mode)\n\
mode = ['2k']\n\
constellation = \"qpsk\"\n\
rate_hp = \"1/2\"\n\
guard = \"1/32\"\n\
== Value(Constellation)\n\
mode = \"2k\"\n\
constellation = \"256qam\"\n\
rate_hp = \"1/2\"\n\
guard = \"1/32\"\n\
== Value(Constellation)\n\
mode = \"2k\"\n\
constellation = 16\n\
rate_hp = \"1/2\"\n\
guard = \"1/32\"\n\
== Value(Hierarchy)\n\
@\n\
hierarchy = 1\n\
== Value(Hierarchy)\n\
@\n\
hierarchy = \"3\"\n\
== Value(Hierarchy)\n\
@\n\
hierarchy = \"\"\n\
== Value(RateHp)\n\
mode = \"2k\"\n\
constellation = \"qpsk\"\n\
rate_hp = \"1/3\"\n\
guard = \"1/32\"\n\
== Value(RateHp)\n\
mode = \"2k\"\n\
constellation = \"qpsk\"\n\
rate_hp = 0.5\n\
guard = \"1/32\"\n\
== Value(RateHp)\n\
mode = \"2k\"\n\
constellation = \"qpsk\"\n\
rate_hp = \"1 /2\"\n\
guard = \"1/32\"\n\
== Value(Guard)\n\
mode = \"2k\"\n\
constellation = \"qpsk\"\n\
rate_hp = \"1/2\"\n\
guard = \"1/128\"\n\
== Value(Guard)\n\
mode = \"2k\"\n\
constellation = \"qpsk\"\n\
rate_hp = \"1/2\"\n\
guard = true\n\
== Value(RateLp)\n\
@\n\
rate_lp = \"1/3\"\n\
== Value(RateLp)\n\
@\n\
rate_lp = 0.5\n\
== Value(CellId)\n\
@\n\
cell_id = -1\n\
== Value(CellId)\n\
@\n\
cell_id = 65536\n\
== Value(CellId)\n\
@\n\
cell_id = \"1\"\n\
== Value(CellId)\n\
@\n\
cell_id = 1.0\n\
== Value(Start)\n\
@\n\
start = \"all\"\n\
== Value(Start)\n\
@\n\
start = 0\n\
== Value(Start)\n\
@\n\
start = 1979-05-27\n\
== Value(Start)\n\
@\n\
start = \"zero\\u0000\"\n\
== Value(Workers)\n\
@\n\
workers = 0\n\
== Value(Workers)\n\
@\n\
workers = 17\n\
== Value(Workers)\n\
@\n\
workers = \"1\"\n\
== Value(Workers)\n\
@\n\
workers = inf\n\
== Value(Workers)\n\
@\n\
workers = 07:32:00\n\
== Value(Workers)\n\
@\n\
workers = { n = 1 }\n\
== Value(Workers)\n\
@\n\
workers = -9223372036854775808\n\
== Value(MaxSymbols)\n\
@\n\
max_symbols = 0\n\
== Value(MaxSymbols)\n\
@\n\
max_symbols = 4294967296\n\
== Value(MaxSymbols)\n\
@\n\
max_symbols = 1e3\n\
== Value(Start)\n\
@\n\
[start]\n\
== Value(Start)\n\
@\n\
start.any = true\n\
== Value(Workers)\n\
@\n\
[[workers]]\n\
== Value(Mode)\n\
mode = \"4k\"\n\
constellation = \"qpsk\"\n\
rate_hp = \"1/2\"\n\
== Missing(Mode)\n\
constellation = \"qpsk\"\n\
rate_hp = \"1/2\"\n\
guard = \"4\"\n\
== Value(CellId)\n\
@\n\
workers = 0\n\
cell_id = -1\n\
== Value(CellId)\n\
@\n\
cell_id = -1\n\
workers = 0\n\
== Value(Workers)\n\
@\n\
hierarchy = \"2\"\n\
workers = 0\n\
== Value(Hierarchy)\n\
@\n\
hierarchy = \"5\"\n\
rate_lp = \"1/3\"\n\
== Missing(Guard)\n\
mode = \"2k\"\n\
constellation = \"16qam\"\n\
hierarchy = \"1\"\n\
rate_hp = \"1/2\"\n\
== Value(RateLp)\n\
mode = \"2k\"\n\
constellation = \"16qam\"\n\
hierarchy = \"1\"\n\
rate_hp = \"1/2\"\n\
rate_lp = \"0\"\n\
== Clash(Hierarchy)\n\
@\n\
hierarchy = \"2\"\n\
== Clash(Hierarchy)\n\
@\n\
hierarchy = \"1\"\n\
rate_lp = \"1/2\"\n\
== Clash(RateLp)\n\
@\n\
rate_lp = \"1/2\"\n\
== Clash(RateLp)\n\
mode = \"8k\"\n\
constellation = \"64qam\"\n\
hierarchy = \"2\"\n\
rate_hp = \"2/3\"\n\
guard = \"1/4\"\n\
== Clash(RateLp)\n\
mode = \"8k\"\n\
constellation = \"64qam\"\n\
rate_hp = \"2/3\"\n\
rate_lp = \"3/4\"\n\
guard = \"1/4\"\n\
== Clash(Hierarchy)\n\
mode = \"8k\"\n\
constellation = \"qpsk\"\n\
hierarchy = \"2\"\n\
rate_hp = \"2/3\"\n\
rate_lp = \"3/4\"\n\
guard = \"1/4\"\n\
";
