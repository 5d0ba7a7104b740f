// The random values of a trial, and its packets put into the modulator.
ghost use Rattle.std.specs.Prelude.{◌≡◌, ◌-◌, ◌<◌, ◌==◌, Some, None, if◌then◌else◌};
ghost use Rattle.mode_set.specs.declared.modes.Stream.TheVariants as streams;
ghost use Rattle.load_gen.specs.Draws.{after, count_of};
ghost use Rattle.symbol_parameters.specs.Spans.{exists_in};
ghost use Rattle.trial.specs.Drawn.{trial_symbols};
ghost use Rattle.modulator.specs.State.{HasOneMore, wanted};
ghost use Rattle.trial.specs.Putting.{IsPutting, IsStarted, KeepsCounts, behind_next, next_of};

use load_gen::Load;
use load_gen::laws::draws_add;
use mode_set::{Carriers, Settings, Stream};
use modulator::{Modulator, Want};
use symbol_parameters::laws::settings as super_frame_settings;
use ts_packet::Packet;

/// The random values from a number: the number of packets of each stream, and how many of them are still to be
/// generated.
#[derive(Drop)]
pub(crate) struct Draws {
    pub number: u32,
    pub load: Load,
    pub hp_packets: u32,
    pub lp_packets: u32,
    pub hp_left: u32,
    pub lp_left: u32,
}

// The count of LP, if LP exists in the transmission.
fn lp_packets(settings: &Settings, load: &mut Load) -> u32
    ensures count { result ≡ (if exists_in settings.now streams.Lp then count_of load.old else 0) }
    ensures next { load.new ≡ (if exists_in settings.now streams.Lp then after 1 load.old else load.old) }
{
    super_frame_settings();
    if !settings.has_lp() {
        return 0;
    }
    load.count()
}

impl Draws {
    /// Generates the counts of the packets.
    pub fn start(settings: &Settings, number: u32) -> Draws
        ensures { IsStarted settings.now number result }
    {
        draws_add();
        let mut load = Load::start(number);
        let hp_packets = load.count();
        let lp_packets = lp_packets(settings, &mut load);
        Draws {
            number,
            load,
            hp_packets,
            lp_packets,
            hp_left: hp_packets,
            lp_left: lp_packets,
        }
    }
}

// The next packet of a stream: a random one while any is left, then a null packet.
fn next_packet(left: &mut u32, load: &mut Load) -> Packet
    ensures packet { result ≡ next_of left.old load.old }
    ensures left { left.new ≡ left.old - 1 }
    ensures load { load.new ≡ behind_next left.old load.old }
{
    if *left == 0 {
        return Packet::null();
    }
    *left -= 1;
    load.packet()
}

fn put_hp<M: Carriers>(draws: &mut Draws, tx: &mut Modulator<M>)
    requires wanted { wanted tx.old ≡ Some streams.Hp }
    requires within { tx.old.made < trial_symbols tx.old.settings draws.old.number }
    requires putting { IsPutting tx.old.settings tx.old.made draws.old tx.old }
    ensures kept { KeepsCounts draws.old draws.new }
    ensures settings { tx.new.settings ≡ tx.old.settings }
    ensures made { tx.new.made ≡ tx.old.made }
    ensures more { HasOneMore (Some streams.Hp) tx.old tx.new }
    ensures putting { IsPutting tx.new.settings tx.new.made draws.new tx.new }
{
    draws_add();
    crate::laws::packets();
    let packet = next_packet(&mut draws.hp_left, &mut draws.load);
    tx.put(&packet);
}

fn put_lp<M: Carriers>(draws: &mut Draws, tx: &mut Modulator<M>)
    requires wanted { wanted tx.old ≡ Some streams.Lp }
    requires within { tx.old.made < trial_symbols tx.old.settings draws.old.number }
    requires putting { IsPutting tx.old.settings tx.old.made draws.old tx.old }
    ensures kept { KeepsCounts draws.old draws.new }
    ensures settings { tx.new.settings ≡ tx.old.settings }
    ensures made { tx.new.made ≡ tx.old.made }
    ensures more { HasOneMore (Some streams.Lp) tx.old tx.new }
    ensures putting { IsPutting tx.new.settings tx.new.made draws.new tx.new }
{
    draws_add();
    crate::laws::packets();
    let packet = next_packet(&mut draws.lp_left, &mut draws.load);
    tx.put(&packet);
}

// Puts in the next packet of the wanted stream.
fn put_next<M: Carriers>(stream: Stream, draws: &mut Draws, tx: &mut Modulator<M>)
    requires wanted { wanted tx.old ≡ Some stream }
    requires within { tx.old.made < trial_symbols tx.old.settings draws.old.number }
    requires putting { IsPutting tx.old.settings tx.old.made draws.old tx.old }
    ensures kept { KeepsCounts draws.old draws.new }
    ensures settings { tx.new.settings ≡ tx.old.settings }
    ensures made { tx.new.made ≡ tx.old.made }
    ensures more { HasOneMore (Some stream) tx.old tx.new }
    ensures putting { IsPutting tx.new.settings tx.new.made draws.new tx.new }
{
    match stream {
        Stream::Hp => put_hp(draws, tx),
        Stream::Lp => put_lp(draws, tx),
    }
}

// The stream of the next packet to put, if the next symbol needs one.
fn wanted_stream<M: Carriers>(tx: &Modulator<M>) -> Option<Stream>
    ensures { result ≡ wanted tx.now }
{
    match tx.wants() {
        Want::Hp => Some(Stream::Hp),
        Want::Lp => Some(Stream::Lp),
        Want::Symbol => None,
    }
}

/// Generates and puts in the packets that the next symbol needs.
pub(crate) fn put_wanted<M: Carriers>(draws: &mut Draws, tx: &mut Modulator<M>)
    requires within { tx.old.made < trial_symbols tx.old.settings draws.old.number }
    requires putting { IsPutting tx.old.settings tx.old.made draws.old tx.old }
    ensures kept { KeepsCounts draws.old draws.new }
    ensures settings { tx.new.settings ≡ tx.old.settings }
    ensures made { tx.new.made ≡ tx.old.made }
    ensures suffices { wanted tx.new ≡ None }
    ensures putting { IsPutting tx.new.settings tx.new.made draws.new tx.new }
{
    while let Some(stream) = wanted_stream(tx) {
        put_next(stream, draws, tx);
    }
}
