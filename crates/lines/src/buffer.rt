ghost use Rattle.std.specs.Prelude.{◌≤◌};
ghost use Rattle.std.specs.Option.{unwrap_or};

mod filling;

// The unfinished line. Of one longer than 1,024 bytes only that it is too long is known. Not an `ArrayVec`, whose `clear`
// writes over each byte that it holds, where this one forgets them at once.
#[derive(Drop)]
pub struct LineBuffer {
    bytes: [u8; 1024],
    // `None` says that the line is too long.
    len: Option<usize>,
    pub ghost room: { unwrap_or len 0 ≤ 1024 },
}
