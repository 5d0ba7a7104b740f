// Documents with a plan, as in `DOCUMENTS`: the entries follow the settings in each answer.

pub(super) const PLANS: &str = "\
== (M2k, Qpsk, Flat, R1of2, None, G1of32, None, Zero, 1, 1000000) (1, Qam16, Alpha4, R1of2, Some(R3of4))\n\
@\n\
plan = [{ after = 1, constellation = \"16qam\", hierarchy = \"4\", rate_hp = \"1/2\", rate_lp = \"3/4\" }]\n\
== (M2k, Qpsk, Flat, R1of2, None, G1of32, None, Zero, 1, 1000000) (3, Qam64, Flat, R7of8, None) (4, Qam64, Flat, R7of8, None)\n\
@\n\
[[plan]]\n\
rate_hp = \"7/8\"\n\
constellation = '64qam'\n\
after = 0x3\n\
\n\
[[plan]]\n\
after = 4\n\
constellation = \"64qam\"\n\
hierarchy = \"none\"\n\
rate_hp = \"7/8\"\n\
== (M2k, Qpsk, Flat, R1of2, None, G1of32, None, Zero, 1, 1000000) (4294967294, Qpsk, Flat, R1of2, None) (4294967295, Qam64, Alpha2, R2of3, Some(R5of6))\n\
plan = [\n\
\x20 { after = 4294967294, constellation = \"qpsk\", rate_hp = \"1/2\" },\n\
\x20 { rate_lp = \"5/6\", rate_hp = \"2/3\", hierarchy = \"2\", constellation = \"64qam\", after = 4294967295 },\n\
]\n\
mode = \"2k\"\n\
constellation = \"qpsk\"\n\
rate_hp = \"1/2\"\n\
guard = \"1/32\"\n\
== (M8k, Qam64, Alpha2, R2of3, Some(R3of4), G1of4, None, Zero, 1, 1000000) (2, Qpsk, Flat, R3of4, None)\n\
mode = \"8k\"\n\
constellation = \"64qam\"\n\
hierarchy = \"2\"\n\
rate_hp = \"2/3\"\n\
rate_lp = \"3/4\"\n\
guard = \"1/4\"\n\
plan = [{ after = 2, constellation = \"qpsk\", rate_hp = \"3/4\" }]\n\
== (M2k, Qpsk, Flat, R1of2, None, G1of32, None, Zero, 1, 1000000) (7, Qam16, Flat, R2of3, None)\n\
@\n\
plan = [{\n\
\x20 after = 7,\n\
\x20 constellation = \"16qam\",\n\
\x20 rate_hp = \"2/3\",\n\
}]\n\
== Value(Plan)\n\
@\n\
plan = 1\n\
== Value(Plan)\n\
@\n\
plan = \"none\"\n\
== Value(Plan)\n\
@\n\
plan = false\n\
== Value(Plan)\n\
@\n\
plan = []\n\
== Value(Plan)\n\
@\n\
plan = {}\n\
== Value(Plan)\n\
@\n\
plan = { after = 1, constellation = \"qpsk\", rate_hp = \"1/2\" }\n\
== Value(Plan)\n\
@\n\
[plan]\n\
after = 1\n\
constellation = \"qpsk\"\n\
rate_hp = \"1/2\"\n\
== Value(Plan)\n\
@\n\
plan = [1]\n\
== Value(Plan)\n\
@\n\
plan = [[]]\n\
== Value(Plan)\n\
@\n\
plan = [{}]\n\
== Value(Plan)\n\
@\n\
plan = [{ after = 1, constellation = \"qpsk\", rate_hp = \"1/2\" }, 2]\n\
== Value(Plan)\n\
@\n\
plan = [{ constellation = \"qpsk\", rate_hp = \"1/2\" }]\n\
== Value(Plan)\n\
@\n\
plan = [{ after = 0, constellation = \"qpsk\", rate_hp = \"1/2\" }]\n\
== Value(Plan)\n\
@\n\
plan = [{ after = 4294967296, constellation = \"qpsk\", rate_hp = \"1/2\" }]\n\
== Value(Plan)\n\
@\n\
plan = [{ after = -1, constellation = \"qpsk\", rate_hp = \"1/2\" }]\n\
== Value(Plan)\n\
@\n\
plan = [{ after = 1.0, constellation = \"qpsk\", rate_hp = \"1/2\" }]\n\
== Value(Plan)\n\
@\n\
plan = [{ after = \"1\", constellation = \"qpsk\", rate_hp = \"1/2\" }]\n\
== Value(Plan)\n\
@\n\
plan = [\n\
\x20 { after = 3, constellation = \"qpsk\", rate_hp = \"1/2\" },\n\
\x20 { after = 3, constellation = \"16qam\", rate_hp = \"1/2\" },\n\
]\n\
== Value(Plan)\n\
@\n\
plan = [\n\
\x20 { after = 3, constellation = \"qpsk\", rate_hp = \"1/2\" },\n\
\x20 { after = 2, constellation = \"qpsk\", rate_hp = \"1/2\" },\n\
]\n\
== Value(Plan)\n\
@\n\
plan = [\n\
\x20 { after = 1, constellation = \"qpsk\", rate_hp = \"1/2\" },\n\
\x20 { after = 3, constellation = \"qpsk\", rate_hp = \"1/2\" },\n\
\x20 { after = 2, constellation = \"qpsk\", rate_hp = \"1/2\" },\n\
]\n\
== Value(Plan)\n\
@\n\
plan = [{ after = 1, rate_hp = \"1/2\" }]\n\
== Value(Plan)\n\
@\n\
plan = [{ after = 1, constellation = \"256qam\", rate_hp = \"1/2\" }]\n\
== Value(Plan)\n\
@\n\
plan = [{ after = 1, constellation = \"qpsk\" }]\n\
== Value(Plan)\n\
@\n\
plan = [{ after = 1, constellation = \"qpsk\", rate_hp = \"1/3\" }]\n\
== Value(Plan)\n\
@\n\
plan = [{ after = 1, constellation = \"16qam\", hierarchy = 2, rate_hp = \"1/2\", rate_lp = \"1/2\" }]\n\
== Value(Plan)\n\
@\n\
plan = [{ after = 1, constellation = \"16qam\", hierarchy = \"2\", rate_hp = \"1/2\", rate_lp = \"1/3\" }]\n\
== Value(Plan)\n\
@\n\
plan = [{ after = 1, constellation = \"qpsk\", rate_hp = \"1/2\", guard = \"1/32\" }]\n\
== Value(Plan)\n\
@\n\
plan = [{ after = 1, constellation = \"qpsk\", rate_hp = \"1/2\", After = 1 }]\n\
== Value(Plan)\n\
@\n\
plan = [{ after = 1, constellation = \"qpsk\", rate_hp = \"1/2\", \"\" = 1 }]\n\
== Value(Plan)\n\
@\n\
plan = [{ after = 1, constellation = \"qpsk\", rate_hp = \"1/2\", plan = [] }]\n\
== Value(Plan)\n\
@\n\
plan = [{ after = 1, constellation = \"qpsk\", hierarchy = \"2\", rate_hp = \"1/2\" }]\n\
== Value(Plan)\n\
@\n\
plan = [{ after = 1, constellation = \"qpsk\", hierarchy = \"2\", rate_hp = \"1/2\", rate_lp = \"1/2\" }]\n\
== Value(Plan)\n\
@\n\
plan = [{ after = 1, constellation = \"16qam\", rate_hp = \"1/2\", rate_lp = \"1/2\" }]\n\
== Value(Plan)\n\
@\n\
plan = [{ after = 1, constellation = \"16qam\", hierarchy = \"2\", rate_hp = \"1/2\" }]\n\
== Value(Plan)\n\
mode = \"2k\"\n\
constellation = \"16qam\"\n\
hierarchy = \"2\"\n\
rate_hp = \"1/2\"\n\
rate_lp = \"1/2\"\n\
guard = \"1/32\"\n\
plan = [{ after = 1, constellation = \"16qam\", rate_hp = \"1/2\", rate_lp = \"1/2\" }]\n\
== NotToml\n\
@\n\
plan = [{ after = 1, after = 2, constellation = \"qpsk\", rate_hp = \"1/2\" }]\n\
== Unknown(5)\n\
@\n\
plan = []\n\
x = 1\n\
== Unknown(0)\n\
@\n\
Plan = []\n\
after = 1\n\
modf = 1\n\
== Missing(Guard)\n\
mode = \"2k\"\n\
constellation = \"qpsk\"\n\
rate_hp = \"1/2\"\n\
plan = []\n\
== Value(CellId)\n\
@\n\
plan = []\n\
cell_id = -1\n\
== Value(MaxSymbols)\n\
@\n\
plan = []\n\
max_symbols = 0\n\
== Value(Plan)\n\
@\n\
hierarchy = \"2\"\n\
plan = []\n\
== Value(Plan)\n\
@\n\
rate_lp = \"1/2\"\n\
plan = [{ after = 1, constellation = \"qpsk\", rate_hp = \"1/2\", mode = \"2k\" }]\n\
== Clash(Hierarchy)\n\
@\n\
hierarchy = \"2\"\n\
plan = [{ after = 1, constellation = \"qpsk\", rate_hp = \"1/2\" }]\n\
== Clash(RateLp)\n\
@\n\
rate_lp = \"1/2\"\n\
plan = [{ after = 1, constellation = \"16qam\", hierarchy = \"2\", rate_hp = \"1/2\", rate_lp = \"1/2\" }]\n\
";
