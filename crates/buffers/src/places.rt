// A text written at a place of a lent buffer, if it fits there.
ghost use Rattle.std.specs.Prelude.{◌≡◌};
ghost use Rattle.buffers.specs.Buffers.{appending};

/// Writes `text` at the place `at`, and answers the place behind it; where it does not fit, writes nothing.
// Beside `Page`, which begins nowhere beyond its buffer.
pub fn append(text: &[u8], at: usize, out: &mut [u8]) -> Option<usize>
    ensures answer { result ≡ (appending text.now at out.old).answer }
    ensures after { out.new ≡ (appending text.now at out.old).after }
{
    if at > out.len() || text.len() > out.len() - at {
        return None;
    }
    let end = at + text.len();
    out[at..end].copy_from_slice(text);
    Some(end)
}
