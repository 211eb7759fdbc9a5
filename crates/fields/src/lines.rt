// From a line of a content to the next.
ghost use Rattle.std.specs.Prelude.{◌≡◌, ◌+◌, min};

// Past the CR at e and the byte behind it, which may be missing.
pub fn next_line(e: usize, len: usize) -> usize
    ensures { result ≡ min (e + 2) len }
{
    e.saturating_add(2).min(len)
}
