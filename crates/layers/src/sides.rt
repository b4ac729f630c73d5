ghost use Rattle.std.specs.Prelude.{◌≡◌, ◌+◌, ◌-◌, ◌<◌, length};
ghost use Rattle.layers.specs.Route.{sides_of, parts_of, Lies};

use bus::Span;

// Where a span lies of which the left target has the bytes below a border.
#[derive(Clone, Copy)]
pub(crate) enum Sides {
    Left,
    Right,
    // with the place of the first byte on the right
    Both(usize),
}

impl Sides {
    pub(crate) fn of(span: Span<'_>, border: u32) -> Sides
        ensures value { result ≡ sides_of border span.entry.start (length span.entry.enabled.now) }
        ensures lies { Lies border span.entry.start (length span.entry.enabled.now) result }
    {
        if span.start as usize + span.enabled.len() <= border as usize {
            Sides::Left
        } else if border <= span.start {
            Sides::Right
        } else {
            Sides::Both((border - span.start) as usize)
        }
    }

    // How many parts the span has.
    pub(crate) fn parts(self) -> u64
        ensures { result ≡ parts_of self }
    {
        match self {
            Sides::Left | Sides::Right => 1,
            Sides::Both(_) => 2,
        }
    }
}
