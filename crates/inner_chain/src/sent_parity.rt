// Which parity of which step a sent bit is.
ghost use Rattle.std.specs.Prelude.{◌≡◌, ◌+◌, ◌*◌, ◌<◌, ℕ, Bool, if◌then◌else◌, slice_index_or, false, true};
ghost use Rattle.mode_set.specs.StreamTable.{sent_in_period, steps_in_period};
ghost use Rattle.puncture.specs.SentBits.{X, Y, sent, sent_bit};
ghost use Rattle.inner_chain.specs.Labels.{parity_at};

use mode_set::Rate;

// X or Y of a step, counted from the first step of a period or of a symbol.
#[derive(Clone, Copy, Debug, PartialEq, Eq)]
pub(crate) struct Parity {
    pub step: u32,
    pub is_y: bool,
}

fn x(step: u32) -> Parity
    ensures { result ≡ record { step = step; is_y = false } }
{
    Parity { step, is_y: false }
}

fn y(step: u32) -> Parity
    ensures { result ≡ record { step = step; is_y = true } }
{
    Parity { step, is_y: true }
}

// The parity that is sent at a place of the puncturing period (EN 300 744, 4.3.3, table 2).
fn parity_in_period(rate: Rate, place: u32) -> Parity
    requires { place < sent_in_period rate }
    ensures step { result.step < steps_in_period rate }
    ensures sent { slice_index_or (sent rate) place (X 1) ≡ (if result.is_y then Y (result.step + 1) else X
        (result.step + 1)) }
{
    match rate {
        Rate::R1of2 => match place {
            0 => x(0),
            _ => y(0),
        },
        Rate::R2of3 => match place {
            0 => x(0),
            1 => y(0),
            _ => y(1),
        },
        Rate::R3of4 => match place {
            0 => x(0),
            1 => y(0),
            2 => y(1),
            _ => x(2),
        },
        Rate::R5of6 => match place {
            0 => x(0),
            1 => y(0),
            2 => y(1),
            3 => x(2),
            4 => y(3),
            _ => x(4),
        },
        Rate::R7of8 => match place {
            0 => x(0),
            1 => y(0),
            2 => y(1),
            3 => y(2),
            4 => y(3),
            5 => x(4),
            6 => y(5),
            _ => x(6),
        },
    }
}

// The parity that is bit `bit` of the sent bits of a path.
pub(crate) fn parity_of(rate: Rate, bit: u32) -> Parity
    requires { bit < 65536 }
    ensures reads { (path : ℕ → Bool) → sent_bit rate path bit
        ≡ parity_at (if result.is_y then 1 else 0) path result.step }
    ensures within { (periods : ℕ) → bit < periods * sent_in_period rate
        → result.step < periods * steps_in_period rate }
{
    let period = bit / rate.sent_in_period() as u32;
    let parity = parity_in_period(rate, bit % rate.sent_in_period() as u32);
    Parity {
        step: period * rate.steps_in_period() as u32 + parity.step,
        is_y: parity.is_y,
    }
}
