ghost use Rattle.std.specs.Prelude.{◌≡◌, ℕ, ◌+◌, ◌%◌, ◌<◌, ◌≤◌, false, length, slice_index, slice_index_or};
ghost use Rattle.layers.specs.Lines.{meets, line_unless_met};
ghost use Rattle.layers.specs.Steps.{chosen};

use bus::Span;

// A line of a cache: the 16 bytes from address 16 times its number on.
#[derive(Clone, Copy)]
pub(crate) struct Line {
    pub(crate) number: u32,
    pub(crate) bytes: [u8; 16],
}

// What a place holds after a write to the span. By a `match`: for `filter` the search found no proof.
pub(crate) fn unless_met(place: Option<Line>, span: Span<'_>) -> Option<Line>
    ensures { result ≡ line_unless_met span.entry.start (length span.entry.enabled.now) place }
{
    match place {
        Some(line) if line.meets(span) => None,
        _ => place,
    }
}

impl Line {
    // Whether a byte of the span is one of the line's, enabled or not.
    fn meets(&self, span: Span<'_>) -> bool
        ensures { result ≡ meets span.entry.start (length span.entry.enabled.now) self.now.number }
    {
        let first = self.number as usize * 16;
        let start = span.start as usize;
        start < first + 16 && first < start + span.enabled.len()
    }

    // Takes the span, which lies within the line, into the buffer.
    pub(crate) fn copy_to(&self, span: Span<'_>, buffer: &mut [u8])
        requires length { length buffer.old ≡ length span.enabled.now }
        requires within { span.start % 16 + length span.enabled.now ≤ 16 }
        ensures { (i : ℕ) → i < length buffer.old → slice_index buffer.new i ≡ chosen (slice_index_or span.entry.enabled.now i false) (slice_index self.now.bytes (span.entry.start % 16 + i)) (slice_index buffer.old i) }
    {
        let first = (span.start % 16) as usize;
        // By index: of a zipped `iter_mut` only the length is known after the loop. Each byte is read and each place written,
        // enabled or not: a loop without branches goes over many bytes at once.
        for (i, b) in buffer.iter_mut().enumerate() {
            let (old, new) = (*b, self.bytes[first + i]);
            *b = if span.enabled[i] { new } else { old };
        }
    }
}
