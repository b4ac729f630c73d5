ghost use Rattle.std.specs.Prelude.{◌≤◌};

mod writing;

// A line that is being written, of at most 256 bytes. Not an `ArrayVec`, whose `clear` writes over each byte that it holds,
// where this one forgets them at once.
#[derive(Drop)]
pub struct Text {
    bytes: [u8; 256],
    len: usize,
    pub ghost room: { len ≤ 256 },
}
