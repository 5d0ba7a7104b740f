// The middle one of numbers.
ghost use Rattle.std.specs.Prelude.{◌≡◌, ◌<◌, ◌≤◌, ◌^◌, length};
ghost use Rattle.track_arithmetic.specs.Middle.{middle_of};

/// The middle one of the numbers: the least that at least half of them do not exceed. There is at least one
/// number. They are sorted then.
pub fn middle(numbers: &mut [u64]) -> u64
    requires { 1 ≤ length numbers.old }
    ensures { result ≡ middle_of numbers.old }
{
    numbers.sort_unstable();
    numbers[(numbers.len() - 1) / 2]
}
