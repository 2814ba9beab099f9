//! Signs.
ghost use Rattle.std.specs.Prelude.{MatchOption};
ghost use Rattle.cb_lexer.specs.Tokens.{IsSignAt, NoSign};

use cb_grammar::Lexeme;

/// The sign that the bytes begin with, and its length.
pub(crate) fn sign(bytes: &[u8]) -> Option<(Lexeme, usize)>
    ensures { MatchOption result (NoSign bytes.now) (λ found. IsSignAt bytes.now found.0 found.1) }
{
    match bytes {
        [b'{', ..] => Some((Lexeme::Open, 1)),
        [b'}', ..] => Some((Lexeme::Close, 1)),
        [b';', ..] => Some((Lexeme::Semicolon, 1)),
        [b':', ..] => Some((Lexeme::Colon, 1)),
        [b'.', ..] => Some((Lexeme::Dot, 1)),
        [b'=', b'>', ..] => Some((Lexeme::Arrow, 2)),
        [b'+', ..] => Some((Lexeme::Plus, 1)),
        _ => None,
    }
}
