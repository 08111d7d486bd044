//! The names of constants, postulates and claims.

ghost use Rattle.std.specs.Prelude.{◌≡◌, ◌↔◌, false, IsTrue, All};
ghost use Rattle.rz_rules.specs.Name.{IsName, is_white};

/// Whether bytes are a name: text, not empty, and without white space.
pub fn is_name(bytes: &[u8]) -> bool
    ensures { IsTrue result ↔ IsName bytes.now }
{
    !bytes.is_empty() && str::from_utf8(bytes).is_ok() && is_solid(bytes)
}

/// Whether no byte is white space.
fn is_solid(bytes: &[u8]) -> bool
    ensures { IsTrue result ↔ All (λ byte. is_white byte ≡ false) bytes.now }
{
    bytes
        .iter()
        .all(|byte| !matches!(*byte, b' ' | b'\t' | b'\n' | b'\r'))
}
