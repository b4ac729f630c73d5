ghost use Rattle.std.specs.Prelude.{◌≡◌, ◌-◌, ◌<◌, ◌≤◌, length, MatchOption};
ghost use Rattle.std.specs.Iterator.{at_most};
ghost use Rattle.layers.specs.Cut.{cut_at, pieces};

use bus::Span;

// The pieces of a span, each by its first place and the place after its last, which are used apart and as a pair: a `Range`
// would have to be cloned for each use. None passes a multiple of the width.
#[derive(Drop)]
pub(crate) struct Pieces {
    start: u32,
    len: usize,
    width: usize,
    at: usize,
    ghost ranges: { (1 ≤ width) × (width ≤ 16) × (len ≤ 64) × (at ≤ len) },
}

impl Pieces {
    pub(crate) fn of(span: Span<'_>, width: usize) -> Pieces
        requires { (1 ≤ width) × (width ≤ 16) }
        ensures start { result.start ≡ span.entry.start }
        ensures len { result.len ≡ length span.entry.enabled.now }
        ensures width { result.width ≡ width }
        ensures at { result.at ≡ 0 }
    {
        Pieces {
            start: span.start,
            len: span.enabled.len(),
            width,
            at: 0,
        }
    }

    // Where the piece ends that begins at place `at`.
    fn end(&self) -> usize
        requires { self.now.at < self.now.len }
        ensures value { result ≡ cut_at self.now.start self.now.width self.now.at self.now.len }
        ensures after { self.now.at < result }
        ensures within { result ≤ self.now.len }
    {
        let start = self.start as usize;
        let next = ((start + self.at) / self.width + 1) * self.width - start;
        next.min(self.len)
    }
}

impl Iterator for Pieces {
    type Item = (usize, usize);

    ghost next_gives = { λ s r t. (t.start ≡ s.start) × (t.len ≡ s.len) × (t.width ≡ s.width) × MatchOption r ((s.len ≤ s.at) × (t.at ≡ s.at)) (λ p. (s.at < s.len) × (p.0 ≡ s.at) × (p.1 ≡ cut_at s.start s.width s.at s.len) × (s.at < p.1) × (p.1 ≤ s.len) × (t.at ≡ p.1)) };

    ghost remaining = { λ s. at_most (s.len - s.at) };

    fn next(&mut self) -> Option<(usize, usize)> {
        if self.at >= self.len {
            return None;
        }
        let from = self.at;
        self.at = self.end();
        Some((from, self.at))
    }
}

// How many pieces the span has.
pub(crate) fn count_pieces(span: Span<'_>, width: usize) -> u64
    requires { 1 ≤ width }
    ensures { result ≡ pieces width span.entry.start (length span.entry.enabled.now) }
{
    let first = span.start as usize;
    let last = first + span.enabled.len() - 1;
    (last / width - first / width + 1) as u64
}
