// A line cut at its tabs.
ghost use Rattle.std.specs.Prelude.{◌≡◌, [], length, slice_index_or};
ghost use Rattle.script.specs.Fields.{fields};

pub fn count_fields(line: &[u8]) -> usize
    ensures { result ≡ length (fields line.now) }
{
    // A loop, which goes over many bytes at once: the `count` of a `split`, and that of a `filter`, goes byte by byte.
    let mut count = 1;
    for b in line {
        if *b == b'\t' {
            count += 1;
        }
    }
    count
}

// Field k, counted from 0; empty past the last one.
pub fn field(line: &[u8], k: usize) -> &[u8]
    ensures { result.now ≡ slice_index_or (fields line.now) k [] }
{
    line.split(|b| *b == b'\t').nth(k).unwrap_or(&[])
}
