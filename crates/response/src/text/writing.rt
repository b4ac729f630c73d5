ghost use Rattle.std.specs.Prelude.{◌≡◌, [], ◌∷◌};
ghost use Rattle.response.specs.Texts.{text, onto};

use crate::text::Text;

impl Text {
    pub fn new() -> Text
        ensures { text result ≡ [] }
    {
        Text {
            bytes: [0; 256],
            len: 0,
        }
    }

    pub fn clear(&mut self)
        ensures { text self.new ≡ [] }
    {
        self.len = 0;
    }

    pub fn as_slice(&self) -> &[u8]
        ensures { result.now ≡ text self.now }
    {
        &self.bytes[..self.len]
    }

    // A byte that finds no room is let go.
    pub(crate) fn push_byte(&mut self, byte: u8)
        ensures { text self.new ≡ onto (text self.old) (byte ∷ []) }
    {
        if self.len < self.bytes.len() {
            self.bytes[self.len] = byte;
            self.len += 1;
        }
    }

    // What finds no room is let go. Byte by byte, since most parts are short.
    pub(crate) fn push(&mut self, part: &[u8])
        ensures { text self.new ≡ onto (text self.old) part.now }
    {
        for byte in part {
            self.push_byte(*byte);
        }
    }
}
