// The rule of the five rates.
ghost use Rattle.std.specs.Prelude.{◌≡◌, ◌+◌, ◌<◌, ◌%◌, ℕ};
ghost use Rattle.mode_set.specs.StreamTable.{steps_in_period};
ghost use Rattle.puncture.specs.SentBits.{X, Y};
ghost use Rattle.puncture.specs.Steps.{is_sent, has_x, has_y};

use crate::Sent;
use mode_set::Rate;

// What is sent of a step of the period, counted from 0.
pub(crate) fn sent_in_place(rate: Rate, place: u8) -> Sent
    requires { place < steps_in_period rate }
    ensures x { has_x result ≡ is_sent rate X place }
    ensures y { has_y result ≡ is_sent rate Y place }
{
    match rate {
        Rate::R1of2 => Sent::Both,
        Rate::R2of3 => match place {
            0 => Sent::Both,
            _ => Sent::OnlyY,
        },
        Rate::R3of4 => match place {
            0 => Sent::Both,
            1 => Sent::OnlyY,
            _ => Sent::OnlyX,
        },
        Rate::R5of6 => match place {
            0 => Sent::Both,
            1 | 3 => Sent::OnlyY,
            _ => Sent::OnlyX,
        },
        Rate::R7of8 => match place {
            0 => Sent::Both,
            1 | 2 | 3 | 5 => Sent::OnlyY,
            _ => Sent::OnlyX,
        },
    }
}

// The place in the period after a step.
pub(crate) fn next_place(rate: Rate, place: u8) -> u8
    requires { place < steps_in_period rate }
    ensures within { result < steps_in_period rate }
    ensures next { (t : ℕ) → place ≡ t % steps_in_period rate → result ≡ (t + 1) % steps_in_period rate }
{
    if place + 1 < rate.steps_in_period() {
        place + 1
    } else {
        0
    }
}

/// The coded bits that are sent of step `step` of a stream, counted from 0 (EN 300 744, 4.3.3).
pub fn sent(rate: Rate, step: u64) -> Sent
    ensures x { has_x result ≡ is_sent rate X step }
    ensures y { has_y result ≡ is_sent rate Y step }
{
    sent_in_place(rate, (step % rate.steps_in_period() as u64) as u8)
}
