#![tactic(auto)]

ghost use Rattle.std.specs.Prelude.{OnOk};
ghost use Rattle.play.specs.Heard.{HearsOn};

use player::Player;
use response::Text;
use std::io;
use std::io::{BufWriter, Read, Write};

// Answers every line that the bytes end, and leaves none of them unheard.
fn answer_all<W: Write>(
    player: &mut Player,
    bytes: &[u8],
    text: &mut Text,
    out: &mut W,
) -> io::Result<()>
    ensures { OnOk result (HearsOn player.old bytes.now player.new) }
{
    let mut rest = bytes;
    while !rest.is_empty() {
        let taken = player.hear(rest, text);
        if taken.answered {
            out.write_all(text.as_slice())?;
        }
        let used = taken.used;
        rest = &rest[used..];
    }
    Ok(())
}

// Answers each whole line that was read before it reads again.
fn main(rt: HostRuntime) -> io::Result<()> {
    let mut player = Player::new();
    let mut text = Text::new();
    let mut input = vec![in rt.alloc(); 0u8; 65536]?;
    let mut out = BufWriter::new(rt.alloc(), rt.stdout())?;
    // a count that no input reaches, since every loop has to end
    for _ in 0..u64::MAX {
        let count = rt.stdin().read(&mut input)?;
        if count == 0 {
            break;
        }
        answer_all(&mut player, &input[0..count], &mut text, &mut out)?;
        out.flush()?;
    }
    if player.finish(&mut text) {
        out.write_all(text.as_slice())?;
    }
    out.flush()
}
