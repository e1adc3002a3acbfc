// White space, and CR and LF, which end a line.
ghost use Rattle.std.specs.Prelude.{◌≡◌};
ghost use Rattle.octets.specs.Believed.Classes.{is_white};
ghost use Rattle.octets.specs.Believed.Text.{crlf_at};

// Whether a byte is SPACE or HTAB.
pub fn is_white(b: u8) -> bool
    ensures { result ≡ is_white b }
{
    matches!(b, b' ' | b'\t')
}

// Whether CR and LF stand at a position.
pub fn is_crlf(text: &[u8], at: usize) -> bool
    ensures { result ≡ crlf_at text.now at }
{
    text.get(at) == Some(&b'\r') && text.get(at + 1) == Some(&b'\n')
}
