ghost use Rattle.std.specs.Prelude.{◌<◌};

// A port that a platform can have.
#[derive(Clone, Copy)]
pub(crate) struct Port {
    pub(crate) index: usize,
    ghost few: { index < 8 },
}
