// Letter case, and equality of two texts with case ignored and without.
ghost use Rattle.std.specs.Prelude.{◌≡◌};
ghost use Rattle.octets.specs.Believed.Letters.{lower as lower_of, same_bytes, same_letters};

// The small letter of a capital one; any other byte is itself.
#[tactic(auto, unfolding(crate::specs::Believed::Letters::lower))]
pub fn lower(b: u8) -> u8
    ensures { result ≡ lower_of b }
{
    b.to_ascii_lowercase()
}

// Whether two parts hold the same bytes.
pub fn same_bytes(x: &[u8], y: &[u8]) -> bool
    ensures { result ≡ same_bytes x.now y.now }
{
    x == y
}

// Whether two parts hold the same bytes, case ignored.
pub fn same_letters(x: &[u8], y: &[u8]) -> bool
    ensures { result ≡ same_letters x.now y.now }
{
    x.eq_ignore_ascii_case(y)
}
