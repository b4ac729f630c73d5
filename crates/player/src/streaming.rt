ghost use Rattle.std.specs.Prelude.{◌≡◌, ℕ, ◌+◌, ◌-◌, ◌^◌, ◌<◌, ◌≤◌, min, true, false, not, List, [], ◌++◌, length, take, is_some, if◌then◌else◌};
ghost use Rattle.lines.specs.Buffers.{held};
ghost use Rattle.lines.specs.Lines.{kept, grown_by, none_held, first_end};
ghost use Rattle.response.specs.Texts.{text};
ghost use Rattle.protocol.specs.Settings.{asked};
ghost use Rattle.player.specs.Start.{state_of, usual};
ghost use Rattle.player.specs.Answers.{Printed, LineAnswered};
ghost use Rattle.player.specs.Streams.{HeardBy, Played, lines_of, used_of};

use crate::answers::answer_line;
use crate::interconnect::interconnect;
use crate::player::{Player, Taken};
use lines::{LineBuffer, first_line_end};
use platform::Platform;
use protocol::Settings;
use response::Text;

// The settings of a script whose first line sets no others.
fn usual_settings() -> Settings
    ensures { asked result ≡ usual }
{
    Settings {
        ports: 2,
        accept: 10,
        quantum: 1_000,
        start: 0,
    }
}

impl Player {
    // A player that has heard nothing.
    pub fn new() -> Player
        ensures { HeardBy [] [] result }
    {
        Player {
            platform: Platform::new(usual_settings(), interconnect()),
            line: LineBuffer::new(),
            number: 1,
        }
    }

    // Answers the line at hand and makes room for the next.
    fn answer(&mut self, out: &mut Text)
        ensures answer { Printed (text out.new) (λ l. LineAnswered self.old.number (held self.old.line) (state_of self.old.platform) l (state_of self.new.platform)) }
        ensures number { self.new.number ≡ min (self.old.number + 1) (2 ^ 64 - 1) }
        ensures line { held self.new.line ≡ kept [] }
    {
        answer_line(&mut self.platform, self.number, self.line.line(), out);
        self.line.clear();
        self.number = self.number.saturating_add(1);
    }

    // Takes a part that ends no line.
    fn keep(&mut self, part: &[u8]) -> Taken
        ensures taken { result ≡ record { used = length part.now; answered = false } }
        ensures line { held self.new.line ≡ grown_by (held self.old.line) part.now }
        ensures number { self.new.number ≡ self.old.number }
        ensures platform { self.new.platform ≡ self.old.platform }
    {
        self.line.add(part);
        Taken {
            used: part.len(),
            answered: false,
        }
    }

    // Takes the last part of a line, and the LF behind it, and answers the line.
    fn end_line(&mut self, part: &[u8], out: &mut Text) -> Taken
        requires { length part.now + 1 < 2 ^ 64 }
        ensures taken { result ≡ record { used = length part.now + 1; answered = true } }
        ensures answer { Printed (text out.new) (λ l. LineAnswered self.old.number (grown_by (held self.old.line) part.now) (state_of self.old.platform) l (state_of self.new.platform)) }
        ensures number { self.new.number ≡ min (self.old.number + 1) (2 ^ 64 - 1) }
        ensures line { held self.new.line ≡ kept [] }
    {
        self.line.add(part);
        self.answer(out);
        Taken {
            used: part.len() + 1,
            answered: true,
        }
    }

    // Whether an unfinished line is at hand.
    fn is_waiting(&self) -> bool
        ensures { result ≡ not (none_held (held self.now.line)) }
    {
        !self.line.is_empty()
    }

    // Takes the bytes up to the first LF, and answers the line that it ends, or takes them all. Whatever was heard
    // before, the answers so far are those to the lines of all bytes so far.
    pub fn hear(&mut self, bytes: &[u8], out: &mut Text) -> Taken
        ensures used { result.used ≡ used_of bytes.now }
        ensures within { result.used ≤ length bytes.now }
        ensures moves { 0 < length bytes.now → 0 < result.used }
        ensures answered { result.answered ≡ is_some (first_end bytes.now) }
        ensures silent { result.answered ≡ false → out.new ≡ out.old }
        ensures heard { (before said : List ℕ) → HeardBy before said self.old → HeardBy (before ++ take result.used bytes.now) (said ++ (if result.answered then text out.new else [])) self.new }
    {
        match first_line_end(bytes) {
            Some(end) => self.end_line(&bytes[0..end], out),
            None => self.keep(bytes),
        }
    }

    // Ends the input: a last line that lacks its LF is answered too. Answers whether there was one; the answer itself
    // stands in `out`, as after `hear`.
    pub fn finish(&mut self, out: &mut Text) -> bool
        ensures answered { result ≡ not (none_held (held self.old.line)) }
        ensures silent { result ≡ false → (out.new ≡ out.old) × (self.new ≡ self.old) }
        ensures played { (before said : List ℕ) → HeardBy before said self.old → Played (lines_of before) (said ++ (if result then text out.new else [])) (state_of self.new.platform) }
    {
        if !self.is_waiting() {
            return false;
        }
        self.answer(out);
        true
    }
}
