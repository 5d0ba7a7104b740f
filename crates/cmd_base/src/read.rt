// Reading a port until a buffer is full or the input ends.
ghost use Rattle.std.specs.Prelude.{◌≡◌, ◌≤◌, ◌<◌, ℕ, true, length, IfOk, OnErr, IsTrue};
ghost use Rattle.station_core.specs.Causes.{Rose};
ghost use Rattle.station_core.specs.Meaning.{source_at, with_source, read_source, with_read_faults};
ghost use Rattle.cmd_base.specs.Reading.{ReadsFront};

use station_core::{Failed, InPort, Station};

/// Reads bytes at the port until the buffer is full or the input ends, and returns their number. Each read requests the
/// bytes still missing.
pub fn fill<'a, S: Station<'a>>(
    station: &mut S,
    port: InPort,
    bytes: &mut [u8],
) -> Result<usize, Failed>
    requires { (source_at port (S.meaning station.old)).attached ≡ true }
    ensures bound { IfOk result (λ n. n ≤ length bytes.new) }
    ensures ok { IfOk result (λ n. S.meaning station.new ≡ with_source port (read_source n
        (source_at port (S.meaning station.old))) (S.meaning station.old)) }
    ensures bytes { IfOk result (λ n. IsTrue (S.meaning station.old).tells
        → ReadsFront (source_at port (S.meaning station.old)).left (length bytes.old) n bytes.new) }
    ensures err { OnErr result ((n : ℕ) × (n < length bytes.old)
        × (IsTrue (S.meaning station.old).tells → n ≤ length (source_at port (S.meaning station.old)).left)
        × (S.meaning station.new ≡ with_read_faults (S.meaning station.new).read_faults
        (with_source port (read_source n (source_at port (S.meaning station.old))) (S.meaning station.old)))) }
    ensures cause { OnErr result (Rose (S.meaning station.old).read_faults (S.meaning station.new).read_faults) }
    ensures later { (S.meaning station.old).read_faults ≤ (S.meaning station.new).read_faults }
{
    let mut filled = 0;
    while filled < bytes.len() {
        let count = station.read(port, &mut bytes[filled..])?;
        if count == 0 {
            break;
        }
        filled += count;
    }
    Ok(filled)
}
