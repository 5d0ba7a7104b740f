// The documents of examples/settings/, written here by tools/settings_examples.py.

// Each begins with a line `== NAME`.
pub(super) const EXAMPLES: &str = "\
== 16qam-alpha-1\n\
# Two streams on 16-QAM with evenly spaced points.\n\
mode = \"2k\"\n\
constellation = \"16qam\"\n\
hierarchy = \"1\"\n\
rate_hp = \"1/2\"\n\
rate_lp = \"1/2\"\n\
guard = \"1/16\"\n\
== 16qam-alpha-2\n\
# Two streams on 16-QAM, the quadrants twice as far apart as the points of one.\n\
mode = \"8k\"\n\
constellation = \"16qam\"\n\
hierarchy = \"2\"\n\
rate_hp = \"2/3\"\n\
rate_lp = \"3/4\"\n\
guard = \"1/4\"\n\
== 16qam-alpha-4\n\
# Two streams on 16-QAM, the quadrants four times as far apart as the points of one.\n\
mode = \"2k\"\n\
constellation = \"16qam\"\n\
hierarchy = \"4\"\n\
rate_hp = \"1/2\"\n\
rate_lp = \"3/4\"\n\
guard = \"1/32\"\n\
== 16qam\n\
# One stream on 16-QAM, with a cell identifier.\n\
mode = \"8k\"\n\
constellation = \"16qam\"\n\
hierarchy = \"none\"\n\
rate_hp = \"3/4\"\n\
guard = \"1/8\"\n\
cell_id = 4660\n\
workers = 1\n\
== 64qam-alpha-1\n\
# Two streams on 64-QAM with evenly spaced points. The receiver may begin in their midst.\n\
mode = \"8k\"\n\
constellation = \"64qam\"\n\
hierarchy = \"1\"\n\
rate_hp = \"3/4\"\n\
rate_lp = \"7/8\"\n\
guard = \"1/16\"\n\
start = \"any\"\n\
== 64qam-alpha-2\n\
# Two streams on 64-QAM, the quadrants twice as far apart as the points of one.\n\
mode = \"8k\"\n\
constellation = \"64qam\"\n\
hierarchy = \"2\"\n\
rate_hp = \"2/3\"\n\
rate_lp = \"3/4\"\n\
guard = \"1/32\"\n\
workers = 1\n\
== 64qam-alpha-4\n\
# Two streams on 64-QAM, the quadrants four times as far apart as the points of one.\n\
mode = \"2k\"\n\
constellation = \"64qam\"\n\
hierarchy = \"4\"\n\
rate_hp = \"1/2\"\n\
rate_lp = \"5/6\"\n\
guard = \"1/8\"\n\
max_symbols = 272\n\
== 64qam\n\
# One stream on 64-QAM: the mode of many national networks.\n\
mode = \"8k\"\n\
constellation = \"64qam\"\n\
rate_hp = \"2/3\"\n\
guard = \"1/32\"\n\
== plan\n\
# One stream on QPSK in the first super-frame, and from the second on two streams on 16-QAM.\n\
mode = \"2k\"\n\
constellation = \"qpsk\"\n\
rate_hp = \"1/2\"\n\
guard = \"1/32\"\n\
\n\
[[plan]]\n\
after = 1\n\
constellation = \"16qam\"\n\
hierarchy = \"4\"\n\
rate_hp = \"1/2\"\n\
rate_lp = \"3/4\"\n\
== qpsk\n\
# One stream on QPSK: the sturdiest transmission. Base settings of many examples.\n\
mode = \"2k\"\n\
constellation = \"qpsk\"\n\
rate_hp = \"1/2\"\n\
guard = \"1/32\"\n\
";
