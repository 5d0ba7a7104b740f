// The size of a symbol and a super-frame in each stream.
ghost use Rattle.std.specs.Prelude.{◌≡◌, ◌*◌, ◌<◌, ◌≤◌, IsTrue};
ghost use Rattle.mode_set.specs.Kept.{is_flat, is_qpsk};
ghost use Rattle.mode_set.specs.StreamTable.{carriers, payload, label_bits, has_stream, width, steps_in_period};
ghost use Rattle.mode_set.specs.StreamTable.{sent_in_period, rate, coded, need, words_per_super_frame};

use crate::{Hierarchy, Mode, Rate, Settings, Shape, Stream};

impl Mode {
    /// K, the carriers of a symbol (EN 300 744, 4.4).
    pub fn carriers(self) -> u32
        ensures { result ≡ carriers self }
    {
        match self {
            Mode::M2k => 1705,
            Mode::M8k => 6817,
        }
    }

    /// The payload carriers of a symbol (EN 300 744, 4.4).
    pub fn payload(self) -> u32
        ensures { result ≡ payload self }
    {
        match self {
            Mode::M2k => 1512,
            Mode::M8k => 6048,
        }
    }
}

impl Shape {
    /// The bits of a label, which are the bits carried by a cell (EN 300 744, 4.3.4.1).
    pub fn label_bits(self) -> u8
        ensures { result ≡ label_bits self }
    {
        match self {
            Shape::Qpsk => 2,
            Shape::Qam16 => 4,
            Shape::Qam64 => 6,
        }
    }

    /// Whether it is QPSK, which has no hierarchy.
    pub fn is_qpsk(self) -> bool
        ensures { result ≡ is_qpsk self }
    {
        match self {
            Shape::Qpsk => true,
            Shape::Qam16 | Shape::Qam64 => false,
        }
    }
}

impl Hierarchy {
    /// Whether there is no hierarchy.
    pub fn is_flat(self) -> bool
        ensures { result ≡ is_flat self }
    {
        match self {
            Hierarchy::Flat => true,
            Hierarchy::Alpha1 | Hierarchy::Alpha2 | Hierarchy::Alpha4 => false,
        }
    }

    /// Whether the stream exists: HP always, LP exactly with a hierarchy.
    pub fn has_stream(self, stream: Stream) -> bool
        ensures { result ≡ has_stream self stream }
    {
        match stream {
            Stream::Hp => true,
            Stream::Lp => !self.is_flat(),
        }
    }
}

impl Rate {
    /// The steps of a puncturing period, which are its input bits (EN 300 744, 4.3.3).
    pub fn steps_in_period(self) -> u8
        ensures steps { result ≡ steps_in_period self }
        ensures some { 0 < result }
        ensures few { result ≤ 7 }
    {
        match self {
            Rate::R1of2 => 1,
            Rate::R2of3 => 2,
            Rate::R3of4 => 3,
            Rate::R5of6 => 5,
            Rate::R7of8 => 7,
        }
    }

    /// The coded bits sent in a puncturing period, one more than its steps (EN 300 744, 4.3.3).
    pub fn sent_in_period(self) -> u8
        ensures sent { result ≡ sent_in_period self }
        ensures few { result ≤ 8 }
    {
        self.steps_in_period() + 1
    }
}

/// The bits of each label that carry the stream, 0 if it does not exist (EN 300 744, 4.3.4.1).
pub fn stream_width(shape: Shape, hierarchy: Hierarchy, stream: Stream) -> u8
    ensures width { result ≡ width shape hierarchy stream }
    ensures few { result ≤ 6 }
{
    match (stream, hierarchy.is_flat()) {
        (Stream::Hp, true) => shape.label_bits(),
        (Stream::Hp, false) => 2,
        (Stream::Lp, true) => 0,
        (Stream::Lp, false) => shape.label_bits() - 2,
    }
}

impl Settings {
    /// Whether the stream exists: HP always, LP exactly with a hierarchy.
    pub fn has_stream(&self, stream: Stream) -> bool
        ensures { result ≡ has_stream self.now.hierarchy stream }
    {
        self.hierarchy.has_stream(stream)
    }

    /// The inner code's rate of the stream.
    pub fn rate(&self, stream: Stream) -> Rate
        ensures { result ≡ rate self.now stream }
    {
        match stream {
            Stream::Hp => self.rate_hp,
            Stream::Lp => self.rate_lp.unwrap_or(Rate::R1of2),
        }
    }

    /// The coded bits of the stream in a symbol, 0 if it does not exist (EN 300 744, 4.3.4.1).
    pub fn coded(&self, stream: Stream) -> u32
        ensures coded { result ≡ coded self.now stream }
        ensures few { result ≤ 36288 }
    {
        self.mode.payload() * stream_width(self.shape, self.hierarchy, stream) as u32
    }

    /// The input bits of the stream in a symbol, one for each step of the inner code.
    ///
    /// A symbol has whole puncturing periods of each stream, so nothing is rounded.
    pub fn need(&self, stream: Stream) -> u32
        ensures need { result ≡ need self.now stream }
        ensures few { result ≤ 31752 }
        ensures whole { result * sent_in_period (rate self.now stream)
            ≡ coded self.now stream * steps_in_period (rate self.now stream) }
    {
        let rate = self.rate(stream);
        self.coded(stream) * rate.steps_in_period() as u32 / rate.sent_in_period() as u32
    }

    /// The outer words of the stream in a super-frame (EN 300 744, 4.7), 0 if it does not exist.
    ///
    /// A super-frame has whole words of each stream, so nothing is rounded.
    pub fn words_per_super_frame(&self, stream: Stream) -> u32
        ensures words { result ≡ words_per_super_frame self.now stream }
        ensures few { result ≤ 5292 }
        ensures some { IsTrue (has_stream self.now.hierarchy stream) → 0 < result }
        ensures whole { 1632 * result ≡ 272 * need self.now stream }
    {
        272 * self.need(stream) / 1632
    }
}
