// The codeword of a message.

ghost use Rattle.std.specs.Prelude.{◌≡◌, take};
ghost use Rattle.rs204.specs.Codes.{IsCodeword, codeword};
ghost use Rattle.rs204.specs.Codes as code;

use crate::division::rest;

/// The systematic codeword of a message: its 188 bytes, then sixteen parity bytes (EN 300 744, 4.3.2).
pub fn encode(message: &[u8; 188]) -> [u8; 204]
    ensures is { result ≡ codeword message.now }
    ensures code { IsCodeword result }
    ensures begins { take 188 result ≡ message.now }
{
    let mut word = [0u8; 204];
    word[..188].copy_from_slice(message);
    let parity = rest(&word).to_le_bytes();
    word[188..].copy_from_slice(&parity);
    word
}
