ghost use Rattle.std.specs.Prelude.{◌≡◌, ◌+◌, ◌*◌, ◌/◌, ◌%◌, ◌^◌, ◌<◌, ◌≤◌, map, length};
ghost use Rattle.bus.specs.Answers.{Okay};
ghost use Rattle.bus.specs.Map.{judged, filled, written};
ghost use Rattle.bus.specs.Target.{if_okay};
ghost use Rattle.bus.specs.declared.kinds.Command.TheVariants.{Read, Write};
ghost use Rattle.layers.specs.Access.{Asked, InPieces, OneRead, OneWrite, PieceRead};
ghost use Rattle.layers.specs.Lines.{whole, line_in, held_ins, holds, after_piece, held_after_read, held_after_write, line_unless_met};

use crate::below::{read_below, write_below};
use crate::cache::Cache;
use crate::lend::part;
use crate::line::{Line, unless_met};
use crate::pieces::Pieces;
use bus::{Command, Span, Target};

// Drops each line that has a byte of the span.
fn drop_met(lines: &mut [Option<Line>; 8], span: Span<'_>)
    ensures { lines.new ≡ map (line_unless_met span.entry.start (length span.entry.enabled.now)) lines.old }
{
    for place in lines.iter_mut() {
        *place = unless_met(*place, span);
    }
}

// The line as the lower target has it, if it may be read as a whole.
fn fetch<T: Target>(lower: &mut T, number: u32) -> Option<Line>
    requires { number < 2 ^ 28 }
    ensures line { result ≡ line_in (T.Target.map lower.old) number }
    ensures map { T.Target.map lower.new ≡ T.Target.map lower.old }
    ensures below { if_okay (judged (T.Target.map lower.old) Read (number * 16) whole) (OneRead T.Target.map T.Target.meter whole (number * 16) 0 16 lower.old lower.new) (lower.new ≡ lower.old) }
{
    let marks = [true; 16];
    let span = Span {
        start: number * 16,
        enabled: &marks,
    };
    lower.judge(Command::Read, span).ok()?;
    let mut bytes = [0; 16];
    read_below(lower, span, &mut bytes);
    Some(Line { number, bytes })
}

impl<T: Target> Cache<T> {
    // The line, which is held from now on if it can be.
    fn hold(&mut self, number: u32) -> Option<Line>
        requires { number < 2 ^ 28 }
        ensures line { result ≡ line_in (T.Target.map self.old.lower) number }
        ensures places { held_ins self.new.lines ≡ after_piece (T.Target.map self.old.lower) number (held_ins self.old.lines) }
        ensures map { T.Target.map self.new.lower ≡ T.Target.map self.old.lower }
        ensures meter { self.new.meter ≡ self.old.meter }
        ensures below { Asked (holds (held_ins self.old.lines) number) (judged (T.Target.map self.old.lower) Read (number * 16) whole) (OneRead T.Target.map T.Target.meter whole (number * 16) 0 16 self.old.lower self.new.lower) (self.new.lower ≡ self.old.lower) (self.new.lower ≡ self.old.lower) }
    {
        let place = (number % 8) as usize;
        let held = self.lines[place].filter(|line| line.number == number);
        if held.is_some() {
            return held;
        }
        let line = fetch(&mut self.lower, number)?;
        self.lines[place] = Some(line);
        Some(line)
    }

    // Reads a span that lies within one line: from the line if it can be held, else below.
    fn read_piece(&mut self, span: Span<'_>, buffer: &mut [u8])
        requires length { length buffer.old ≡ length span.enabled.now }
        requires within { span.start % 16 + length span.enabled.now ≤ 16 }
        requires judged { judged (T.Target.map self.old.lower) Read span.start span.enabled.now ≡ Okay }
        ensures bytes { buffer.new ≡ filled (T.Target.map self.old.lower) span.entry.start span.entry.enabled.now buffer.old }
        ensures places { held_ins self.new.lines ≡ after_piece (T.Target.map self.old.lower) (span.entry.start / 16) (held_ins self.old.lines) }
        ensures map { T.Target.map self.new.lower ≡ T.Target.map self.old.lower }
        ensures meter { self.new.meter ≡ self.old.meter }
        ensures below { Asked (holds (held_ins self.old.lines) (span.entry.start / 16)) (judged (T.Target.map self.old.lower) Read (span.entry.start / 16 * 16) whole) (OneRead T.Target.map T.Target.meter whole (span.entry.start / 16 * 16) 0 16 self.old.lower self.new.lower) (OneRead T.Target.map T.Target.meter span.entry.enabled.now span.entry.start 0 (length span.entry.enabled.now) self.old.lower self.new.lower) (self.new.lower ≡ self.old.lower) }
    {
        match self.hold(span.start / 16) {
            Some(line) => line.copy_to(span, buffer),
            None => read_below(&mut self.lower, span, buffer),
        }
    }

    // Reads a span that is judged 1, one line after another.
    #[tactic(auto, using(crate::proofs::Sofar::walking))]
    pub(crate) fn read_lines(&mut self, span: Span<'_>, buffer: &mut [u8])
        requires length { length buffer.old ≡ length span.enabled.now }
        requires judged { judged (T.Target.map self.old.lower) Read span.start span.enabled.now ≡ Okay }
        ensures bytes { buffer.new ≡ filled (T.Target.map self.old.lower) span.entry.start span.entry.enabled.now buffer.old }
        ensures places { held_ins self.new.lines ≡ held_after_read (T.Target.map self.old.lower) span.entry.start (length span.entry.enabled.now) (held_ins self.old.lines) }
        ensures map { T.Target.map self.new.lower ≡ T.Target.map self.old.lower }
        ensures meter { self.new.meter ≡ self.old.meter }
        ensures accesses { InPieces (PieceRead T.Target.map T.Target.meter span.entry.start span.entry.enabled.now) 16 span.entry.start (length span.entry.enabled.now) (self.old.lower, held_ins self.old.lines) (self.new.lower, held_ins self.new.lines) }
    {
        for (from, to) in Pieces::of(span, 16) {
            self.read_piece(part(span, from, to), &mut buffer[from..to]);
        }
    }

    // Writes to a span that is judged 1, and drops each line that has a byte of it.
    pub(crate) fn write_lines(&mut self, span: Span<'_>, bytes: &[u8])
        requires length { length bytes.now ≡ length span.enabled.now }
        requires judged { judged (T.Target.map self.old.lower) Write span.start span.enabled.now ≡ Okay }
        ensures access { OneWrite T.Target.map T.Target.meter span.entry.enabled.now bytes.now span.entry.start 0 (length span.entry.enabled.now) self.old.lower self.new.lower }
        ensures map { T.Target.map self.new.lower ≡ written span.entry.start span.entry.enabled.now bytes.now (T.Target.map self.old.lower) }
        ensures places { held_ins self.new.lines ≡ held_after_write span.entry.start (length span.entry.enabled.now) (held_ins self.old.lines) }
        ensures meter { self.new.meter ≡ self.old.meter }
    {
        write_below(&mut self.lower, span, bytes);
        drop_met(&mut self.lines, span);
    }
}
