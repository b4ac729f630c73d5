ghost use Rattle.std.specs.Prelude.{◌≡◌, ◌≤◌, length, take};
ghost use Rattle.response.specs.Lines.{line_feed, seen, shown, Short};
ghost use Rattle.response.specs.Texts.{text, onto};

use crate::fields::{data_field, number_field, status_field};
use crate::text::Text;
use bus::{AccessError, Refusal};
use script::PlayerFault;

// What a player answers, a line each.
#[derive(Clone, Copy, Debug, PartialEq, Eq)]
pub enum Response<'a> {
    Set,
    Done {
        port: u64,
        local: u64,
        status: Result<(), AccessError>,
        data: Option<&'a [u8]>,
    },
    Sync {
        port: u64,
        now: u64,
    },
    No(Refusal),
    Bad {
        line: u64,
        fault: PlayerFault,
    },
}

impl Response<'_> {
    // The word and the fields. With LF they are the line.
    // `write!` promises its text only at `Ok`, and no clause says when that is, so each part is pushed.
    fn write_fields(self, out: &mut Text)
        ensures text { onto (text out.new) line_feed ≡ onto (text out.old) (shown (seen self.entry)) }
        ensures short { Short (seen self.entry) → length (shown (seen self.entry)) ≤ 256 }
    {
        match self {
            Response::Set => out.push(b"SET"),
            Response::Done {
                port,
                local,
                status,
                data,
            } => {
                out.push(b"DONE");
                number_field(out, port);
                number_field(out, local);
                status_field(out, status);
                data_field(out, data);
            }
            Response::Sync { port, now } => {
                out.push(b"SYNC");
                number_field(out, port);
                number_field(out, now);
            }
            Response::No(refusal) => {
                out.push(b"NO");
                number_field(out, u8::from(refusal));
            }
            Response::Bad { line, fault } => {
                out.push(b"BAD");
                number_field(out, line);
                number_field(out, fault.field());
                number_field(out, fault.cause());
            }
        }
    }

    // The line, in place of what `out` held. With at most 64 bytes of data it is whole.
    pub fn print(self, out: &mut Text)
        ensures cut { text out.new ≡ take 256 (shown (seen self.entry)) }
        ensures whole { Short (seen self.entry) → text out.new ≡ shown (seen self.entry) }
    {
        out.clear();
        self.write_fields(out);
        out.push_byte(b'\n');
    }
}
