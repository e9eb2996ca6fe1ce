//! What stands between two tokens of a layout.

use crate::scope::Scope;
use cedar_schema_tokens::{Spelled, SpelledKind, Symbol};

/// What stands between two tokens.
#[derive(Clone, Copy, Drop, PartialEq, Eq)]
pub(crate) enum Separator {
    /// Nothing.
    Nothing,
    /// A blank.
    Blank,
    /// A line end, with two blanks for each level behind it.
    Line(usize),
    /// An empty line, and the same.
    EmptyLine(usize),
}

impl Separator {
    /// The separator, or an empty line in place of a line end.
    fn apart(self, is_apart: bool) -> Separator {
        match self {
            Separator::Line(level) if is_apart => Separator::EmptyLine(level),
            other => other,
        }
    }
}

/// What a layout has before a token or a comment.
#[derive(Clone, Copy)]
pub(crate) struct Behind {
    /// Where it stands.
    pub scope: Scope,
    /// What the last token is.
    pub last: SpelledKind,
    /// Whether an annotation ends with it.
    pub ends_annotation: bool,
    /// Whether a comment stands behind it.
    pub comment: bool,
    /// Whether an empty line is to follow.
    pub is_apart: bool,
}

/// Whether nothing stands before such a symbol.
fn clings(symbol: Symbol) -> bool {
    match symbol {
        Symbol::PathSeparator | Symbol::Colon | Symbol::Comma | Symbol::Semicolon => true,
        Symbol::Question | Symbol::Less | Symbol::Greater => true,
        Symbol::CloseBracket | Symbol::OpenParenthesis | Symbol::CloseParenthesis => true,
        _ => false,
    }
}

/// Whether nothing stands behind such a token.
fn holds_on(last: SpelledKind) -> bool {
    match last {
        SpelledKind::Symbol(symbol) => match symbol {
            Symbol::PathSeparator | Symbol::Less | Symbol::OpenBracket => true,
            Symbol::OpenParenthesis | Symbol::At => true,
            _ => false,
        },
        _ => false,
    }
}

/// The first token of some, if there is one.
fn first_token(pieces: &[Spelled<'_>]) -> Option<SpelledKind> {
    for piece in pieces {
        if piece.kind != SpelledKind::Comment {
            return Some(piece.kind);
        }
    }
    None
}

/// Whether the declaration that begins some tokens, behind annotations, is that of a namespace.
fn begins_namespace(pieces: &[Spelled<'_>]) -> bool {
    let mut is_annotation = false;
    for piece in pieces {
        match piece.kind {
            SpelledKind::Symbol(symbol) => is_annotation = symbol == Symbol::At,
            SpelledKind::Id if is_annotation => is_annotation = false,
            SpelledKind::Id => return piece.text == "namespace",
            _ => {}
        }
    }
    false
}

/// Whether an empty line stands between a declaration that ends so and what follows: one of the two
/// is that of a namespace.
fn is_apart_behind(last: SpelledKind, more: &[Spelled<'_>]) -> bool {
    match last {
        SpelledKind::Symbol(Symbol::CloseBrace) => true,
        SpelledKind::Symbol(Symbol::Semicolon) => begins_namespace(more),
        _ => false,
    }
}

impl Behind {
    /// In front of a text.
    pub(crate) fn new() -> Behind {
        Behind {
            scope: Scope::new(),
            last: SpelledKind::Symbol(Symbol::Semicolon),
            ends_annotation: false,
            comment: false,
            is_apart: false,
        }
    }

    /// Behind a token or a comment, where this follows.
    pub(crate) fn and(&self, piece: &Spelled<'_>, more: &[Spelled<'_>]) -> Behind {
        if piece.kind == SpelledKind::Comment {
            let is_apart = self.is_apart && piece.lines == 0;
            return Behind {
                comment: true,
                is_apart,
                ..*self
            };
        }
        let scope = self.scope.behind(piece);
        Behind {
            scope,
            last: piece.kind,
            ends_annotation: self.ends_annotation_with(piece.kind, more),
            comment: false,
            is_apart: scope.begins_declaration() && is_apart_behind(piece.kind, more),
        }
    }

    /// Whether an annotation ends with a token, where this follows.
    fn ends_annotation_with(&self, kind: SpelledKind, more: &[Spelled<'_>]) -> bool {
        if self.last == SpelledKind::Symbol(Symbol::At) {
            return first_token(more) != Some(SpelledKind::Symbol(Symbol::OpenParenthesis));
        }
        kind == SpelledKind::Symbol(Symbol::CloseParenthesis)
    }

    /// Whether a line begins behind the last token, whatever follows.
    fn ends_line(&self) -> bool {
        if self.ends_annotation {
            return true;
        }
        match self.last {
            SpelledKind::Symbol(Symbol::Semicolon) | SpelledKind::Symbol(Symbol::OpenBrace) => true,
            SpelledKind::Symbol(Symbol::Comma) => self.scope.is_among_lines(),
            SpelledKind::Symbol(Symbol::CloseBrace) => self.scope.begins_declaration(),
            _ => false,
        }
    }

    /// The level of a line that begins here.
    fn line_level(&self) -> usize {
        let level = self.scope.level();
        if self.ends_line() {
            level
        } else {
            level.saturating_add(1)
        }
    }

    /// What stands before a closing brace.
    fn before_closing(&self) -> Separator {
        let opened = self.last == SpelledKind::Symbol(Symbol::OpenBrace);
        if opened && !self.comment {
            return Separator::Nothing;
        }
        Separator::Line(self.scope.level().saturating_sub(1))
    }

    /// What stands before a token that is no closing brace.
    fn before_token(&self, kind: SpelledKind) -> Separator {
        if self.ends_line() || self.comment {
            return Separator::Line(self.line_level());
        }
        match kind {
            SpelledKind::Symbol(symbol) if clings(symbol) => Separator::Nothing,
            _ if holds_on(self.last) => Separator::Nothing,
            _ => Separator::Blank,
        }
    }

    /// What stands before a token or a comment.
    pub(crate) fn before(&self, piece: &Spelled<'_>) -> Separator {
        let opened = self.last == SpelledKind::Symbol(Symbol::OpenBrace) && !self.comment;
        let is_apart = self.is_apart || (piece.lines > 1 && !opened);
        match piece.kind {
            SpelledKind::Symbol(Symbol::CloseBrace) => self.before_closing(),
            SpelledKind::Comment if piece.lines == 0 && !self.comment => Separator::Blank,
            SpelledKind::Comment => Separator::Line(self.line_level()).apart(is_apart),
            kind => self.before_token(kind).apart(is_apart),
        }
    }
}
