// How bytes are divided into pieces.
use load_gen::Load;

/// How bytes are divided into pieces.
#[derive(Clone, Copy)]
pub enum Cut {
    /// Pieces of this number of bytes.
    Size(usize),
    /// Pieces of at most this number of bytes, of random length.
    Drawn(u32),
}

impl Cut {
    /// The next piece of the rest, which it does not exceed.
    pub fn piece<'b>(self, rest: &'b [u8], load: &mut Load) -> &'b [u8] {
        let size = match self {
            Cut::Size(size) => size,
            Cut::Drawn(most) => load.piece(most) as usize,
        };
        &rest[..size.min(rest.len())]
    }
}
