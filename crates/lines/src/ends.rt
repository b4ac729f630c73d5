ghost use Rattle.std.specs.Prelude.{◌≡◌};
ghost use Rattle.lines.specs.Lines.{first_end};

// Where the first line ends: the place of the first LF.
pub fn first_line_end(bytes: &[u8]) -> Option<usize>
    ensures { result ≡ first_end bytes.now }
{
    bytes.iter().position(|b| *b == b'\n')
}
