//! Whether two kinds of tokens are the same.
ghost use Rattle.std.specs.Prelude.{◌≡◌, ◌==◌, IsTrue};
ghost use Rattle.sml_read_parts.specs.Machine.{code};

use sml_tree::TokenKind;

/// Whether two kinds are the same.
pub fn same_kind(a: TokenKind, b: TokenKind) -> bool
    ensures same { result ≡ (code a == code b) }
    ensures one { IsTrue result → a ≡ b }
{
    a as u8 == b as u8
}
