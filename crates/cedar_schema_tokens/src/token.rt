//! Tokens.

use cedar_ast::Loc;

/// A symbol.
#[derive(Clone, Copy, Debug, Drop, PartialEq, Eq)]
pub enum Symbol {
    /// `::`
    PathSeparator,
    /// `:`
    Colon,
    /// `,`
    Comma,
    /// `;`
    Semicolon,
    /// `?`
    Question,
    /// `=`
    Equals,
    /// `<`
    Less,
    /// `>`
    Greater,
    /// `[`
    OpenBracket,
    /// `]`
    CloseBracket,
    /// `{`
    OpenBrace,
    /// `}`
    CloseBrace,
    /// `(`
    OpenParenthesis,
    /// `)`
    CloseParenthesis,
    /// `@`
    At,
}

/// What a token is.
#[derive(Debug, Drop)]
pub enum Lexeme<'a> {
    /// An ASCII letter or `_`, and all ASCII letters, digits and `_` behind it.
    Id(&'a str),
    /// A quoted text, with its escapes resolved.
    Text(String),
    /// A symbol.
    Symbol(Symbol),
}

/// A token with its place, which for a text includes its quotes.
#[derive(Debug, Drop)]
pub struct Token<'a> {
    /// What the token is.
    pub lexeme: Lexeme<'a>,
    /// Where it stands.
    pub loc: Loc,
}
