// The fields of the TPS bits of a frame.
use crate::fields::{
    guard_digits, guard_of, hierarchy_digits, hierarchy_of, length_digits, mode_digits, mode_of,
    number, put, put_number, rate_digits, rate_of, shape_digits, shape_of, sync_digits,
};
use mode_set::{Guard, Hierarchy, Mode, Rate, Settings, Shape};
use tps_bch::parity;

/// The fields signalled by the TPS bits of a frame (EN 300 744, 4.6.2).
///
/// `shape` to `mode` announce the next super-frame; the other fields are those of the current one.
#[derive(Clone, Copy, Debug, PartialEq, Eq)]
pub struct TpsWord {
    /// The frame's number in its super-frame, 1 to 4.
    pub frame: u8,
    /// Whether a cell identifier is signalled.
    pub with_cell: bool,
    /// The constellation.
    pub shape: Shape,
    /// The hierarchy; QPSK has none.
    pub hierarchy: Hierarchy,
    /// The inner code's rate of the HP stream.
    pub rate_hp: Rate,
    /// The inner code's rate of the LP stream, 1/2 without a hierarchy.
    pub rate_lp: Rate,
    /// The guard interval.
    pub guard: Guard,
    /// The transmission mode.
    pub mode: Mode,
    /// The cell identifier's high byte in frames 1 and 3, its low byte in frames 2 and 4, or 0.
    pub cell_byte: u8,
}

impl TpsWord {
    ghost use Rattle.std.specs.Prelude.{◌≡◌, ◌≤◌, ◌↔◌, IsTrue, IsFalse, IfSome, Some};
    ghost use Rattle.mode_set.specs.Kept.{is_flat, is_qpsk};
    ghost use Rattle.tps_word.specs.declared.word.TpsWord.{TpsWord as Word};
    ghost use Rattle.tps_word.specs.Tps.{tps_info, tps_word, signalled, IsValid, ReadsAs};

    /// The fields that a frame of a transmission with these settings signals.
    pub fn signalled(settings: &Settings, frame: u8) -> TpsWord
        requires first { 1 ≤ frame }
        requires last { frame ≤ 4 }
        ensures fields { result ≡ signalled settings.now frame }
        ensures valid { IsValid result }
    {
        let cell_byte = match settings.cell_id {
            None => 0,
            Some(id) => if frame % 2 == 1 {
                (id / 256) as u8
            } else {
                (id % 256) as u8
            },
        };
        TpsWord {
            frame,
            with_cell: settings.cell_id.is_some(),
            shape: settings.shape,
            hierarchy: settings.hierarchy,
            rate_hp: settings.rate_hp,
            rate_lp: settings.rate_lp.unwrap_or(Rate::R1of2),
            guard: settings.guard,
            mode: settings.mode,
            cell_byte,
        }
    }

    // The bits s1 to s53.
    fn info(&self) -> [bool; 53]
        requires first { 1 ≤ self.now.frame }
        requires last { self.now.frame ≤ 4 }
        ensures { result ≡ tps_info self.now }
    {
        let mut bits = [false; 53];
        let at = put(&mut bits, 0, sync_digits(self.frame));
        let at = put(&mut bits, at, length_digits(self.with_cell));
        let at = put_number(&mut bits, at, 2, self.frame - 1);
        let at = put(&mut bits, at, shape_digits(self.shape));
        let at = put(&mut bits, at, hierarchy_digits(self.hierarchy));
        let at = put(&mut bits, at, rate_digits(self.rate_hp));
        let at = put(&mut bits, at, rate_digits(self.rate_lp));
        let at = put(&mut bits, at, guard_digits(self.guard));
        let at = put(&mut bits, at, mode_digits(self.mode));
        let at = put_number(&mut bits, at, 8, self.cell_byte);
        let _ = put(&mut bits, at, b"000000");
        bits
    }

    /// The bits s1 to s67 of a frame with these fields (EN 300 744, 4.6.2). `frame` is 1 to 4, and without a cell
    /// identifier `cell_byte` is 0.
    pub fn write(&self) -> [bool; 67]
        requires first { 1 ≤ self.now.frame }
        requires last { self.now.frame ≤ 4 }
        requires cell { IsFalse self.now.with_cell → self.now.cell_byte ≡ 0 }
        ensures { result ≡ tps_word self.now }
    {
        let info = self.info();
        let mut word = [false; 67];
        word[..53].copy_from_slice(&info);
        word[53..].copy_from_slice(&parity(&info));
        word
    }

    // QPSK has no hierarchy.
    fn shape_stands(&self) -> bool
        ensures { IsTrue result ↔ (IsTrue (is_qpsk self.now.shape) → IsTrue (is_flat self.now.hierarchy)) }
    {
        if self.shape.is_qpsk() {
            self.hierarchy.is_flat()
        } else {
            true
        }
    }

    // Without a hierarchy the LP rate is sent as 1/2.
    fn rate_stands(&self) -> bool
        ensures { IsTrue result ↔ (IsTrue (is_flat self.now.hierarchy) → self.now.rate_lp ≡ Rate.R1of2) }
    {
        if self.hierarchy.is_flat() {
            self.rate_lp == Rate::R1of2
        } else {
            true
        }
    }

    // Whether these fields are valid.
    fn is_valid(&self) -> bool
        requires first { 1 ≤ self.now.frame }
        requires last { self.now.frame ≤ 4 }
        ensures { IsTrue result ↔ IsValid self.now }
    {
        let byte = self.cell_byte;
        if !self.shape_stands() {
            return false;
        }
        if !self.rate_stands() {
            return false;
        }
        if self.with_cell { true } else { byte == 0 }
    }

    // The fields at their fixed positions in the bits.
    fn fields_of(bits: &[bool; 67]) -> Option<TpsWord>
        ensures word { (t : Word) → IsValid t → bits.now ≡ tps_word t → result ≡ Some t }
        ensures frame { IfSome result (λ t. (1 ≤ t.frame) × (t.frame ≤ 4)) }
    {
        Some(TpsWord {
            frame: number(&bits[22..24]) + 1,
            with_cell: bits[18],
            shape: shape_of(number(&bits[24..26]))?,
            hierarchy: hierarchy_of(number(&bits[26..29]))?,
            rate_hp: rate_of(number(&bits[29..32]))?,
            rate_lp: rate_of(number(&bits[32..35]))?,
            guard: guard_of(number(&bits[35..37]))?,
            mode: mode_of(number(&bits[37..39]))?,
            cell_byte: number(&bits[39..47]),
        })
    }

    /// The fields that bits s1 to s67 signal: `None` exactly if a field has a value outside the standard's table, two
    /// fields contradict each other, or the parity is wrong.
    pub fn read(bits: &[bool; 67]) -> Option<TpsWord>
        ensures { ReadsAs bits.now result }
    {
        let word = Self::fields_of(bits)?;
        if !word.is_valid() {
            return None;
        }
        if word.write() == *bits {
            Some(word)
        } else {
            None
        }
    }
}
