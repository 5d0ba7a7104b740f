// What the running means say of the channel.
ghost use Rattle.std.specs.Prelude.{◌≡◌, ◌≤◌, ◌*◌, ◌^◌, IsTrue};
ghost use Rattle.tracking.specs.Moving.{motion_of, noise_of, noise_share, slow_is_better};
ghost use Rattle.tracking.specs.Tracking.{noise_by};
ghost use Rattle.track_motion.specs.Means.{AreSmall, fast_of, most_residue, slow_of};

use crate::residues::Residues;
use mode_set::Guard;
use tracking::Motion;

// The lesser of what both motions leave, of which 4/5 and 16/29 are noise.
fn noise_of(slow: u64, fast: u64) -> u64
    requires slow { slow ≤ most_residue }
    requires fast { fast ≤ most_residue }
    ensures is { result ≡ noise_of slow fast }
    ensures most { result ≤ 2 ^ 44 }
{
    (4 * slow / 5).min(16 * fast / 29)
}

// The share of the noise, in sixteenths, that remains after the interpolation in frequency.
fn noise_share(guard: Guard) -> u64
    ensures is { result ≡ noise_share guard }
    ensures most { result ≤ 11 }
{
    match guard {
        Guard::G1of4 => 2,
        Guard::G1of8 => 7,
        Guard::G1of16 => 10,
        Guard::G1of32 => 11,
    }
}

// Whether slow interpolation leaves no greater error than fast.
fn slow_is_better(guard: Guard, slow: u64, fast: u64) -> bool
    requires slow { slow ≤ most_residue }
    requires fast { fast ≤ most_residue }
    ensures { result ≡ slow_is_better guard slow fast }
{
    let noise = noise_share(guard) * noise_of(slow, fast);
    16 * slow + 13 * noise / 16 <= 16 * fast + noise / 4
}

/// The noise of the continual pilots: by the running means, or half the middle change if none was measured.
pub fn noise(means: Option<Residues>, middle: u64) -> u64
    requires means { AreSmall means }
    requires middle { middle ≤ 2 ^ 44 }
    ensures is { result ≡ noise_by (slow_of means) (fast_of means) middle }
    ensures most { result ≤ 2 ^ 44 }
{
    match means {
        None => middle / 2,
        Some(both) => noise_of(both.slow, both.fast),
    }
}

/// What the channel is taken for by the running means.
pub fn motion(guard: Guard, means: Option<Residues>) -> Motion
    requires { AreSmall means }
    ensures { result ≡ motion_of guard (slow_of means) (fast_of means) }
{
    match means {
        None => Motion::Fast,
        Some(both) => {
            if slow_is_better(guard, both.slow, both.fast) {
                Motion::Slow
            } else {
                Motion::Fast
            }
        }
    }
}
