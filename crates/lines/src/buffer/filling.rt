ghost use Rattle.std.specs.Prelude.{◌≡◌, ◌≤◌, [], length, IfSome};
ghost use Rattle.std.specs.Option.{option_copied};
ghost use Rattle.lines.specs.Buffers.{held};
ghost use Rattle.lines.specs.Laws.{CutLaws};
ghost use Rattle.lines.specs.Lines.{kept, grown_by, line_of, none_held};

use crate::buffer::LineBuffer;

impl LineBuffer {
    pub fn new() -> LineBuffer
        ensures { held result ≡ kept [] }
    {
        LineBuffer {
            bytes: [0; 1024],
            len: Some(0),
        }
    }

    pub fn clear(&mut self)
        ensures { held self.new ≡ kept [] }
    {
        self.len = Some(0);
    }

    // Once the line is too long, nothing more of it is kept.
    // The laws say what a part that is added does to the lines of all that came.
    #[tactic(auto, using(crate::proofs::CutLaws::laws))]
    pub fn add(&mut self, part: &[u8])
        ensures laws { CutLaws }
        ensures held { held self.new ≡ grown_by (held self.old) part.now }
    {
        let Some(len) = self.len else {
            return;
        };
        if part.len() > self.bytes.len() - len {
            self.len = None;
            return;
        }
        let end = len + part.len();
        self.bytes[len..end].copy_from_slice(part);
        self.len = Some(end);
    }

    // The line, unless it is too long.
    pub fn line(&self) -> Option<&[u8]>
        ensures line { option_copied result ≡ line_of (held self.now) }
        ensures fits { IfSome result (λ x. length x.now ≤ 1024) }
    {
        let len = self.len?;
        Some(&self.bytes[..len])
    }

    pub fn is_empty(&self) -> bool
        ensures { result ≡ none_held (held self.now) }
    {
        self.len == Some(0)
    }
}
