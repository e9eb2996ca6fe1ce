//! Where in the declarations of a text a token stands.

use cedar_schema_tokens::{Spelled, SpelledKind, Symbol};

/// What is declared.
#[derive(Clone, Copy, Drop, PartialEq, Eq)]
enum Declared {
    /// An entity type.
    Entity,
    /// An action.
    Action,
    /// Something else.
    Other,
}

/// What may stand next.
#[derive(Clone, Copy, Drop, PartialEq, Eq)]
enum Next {
    /// A declaration, or annotations before one.
    Declaration,
    /// The name of a namespace, or its block.
    Block,
    /// A name of what is declared.
    Name,
    /// What follows the names, or the parents.
    Clause,
    /// Paths or parents: one, or a list in brackets.
    Paths,
    /// The parts of an `appliesTo`, in braces.
    Parts,
    /// The word of a part.
    Part,
    /// The colon behind the word of a part that lists types.
    ListingPart,
    /// Anything else.
    Other,
}

/// Where a token stands.
#[derive(Clone, Copy)]
pub(crate) struct Scope {
    /// What is declared there.
    declared: Declared,
    /// What may stand next.
    next: Next,
    /// How many braces are open.
    level: usize,
    /// Whether the first of them is that of a namespace.
    in_block: bool,
    /// Whether brackets are open.
    in_brackets: bool,
    /// The level inside the parts of an `appliesTo`, and 0 outside of any.
    parts: usize,
    /// Whether the last token was the `@` of an annotation.
    in_annotation: bool,
}

impl Scope {
    /// In front of a text.
    pub(crate) fn new() -> Scope {
        Scope {
            declared: Declared::Other,
            next: Next::Declaration,
            level: 0,
            in_block: false,
            in_brackets: false,
            parts: 0,
            in_annotation: false,
        }
    }

    /// How many braces are open.
    pub(crate) fn level(&self) -> usize {
        self.level
    }

    /// Whether a declaration may begin, or the annotations before one.
    pub(crate) fn begins_declaration(&self) -> bool {
        self.next == Next::Declaration
    }

    /// Whether commas part items that have a line each.
    pub(crate) fn is_among_lines(&self) -> bool {
        !self.in_brackets && self.level > self.outer_level()
    }

    /// Whether paths begin that stand in brackets, or one that doesn't yet.
    pub(crate) fn begins_paths(&self) -> bool {
        self.next == Next::Paths
    }

    /// Whether a brace here opens the attributes of an entity type without `=`.
    pub(crate) fn begins_shape(&self) -> bool {
        self.next == Next::Clause && self.declared == Declared::Entity
    }

    /// The level of declarations.
    fn outer_level(&self) -> usize {
        if self.in_block { 1 } else { 0 }
    }

    /// Behind the one path that stands where paths may.
    pub(crate) fn behind_path(&self) -> Scope {
        let next = if self.parts > 0 {
            Next::Other
        } else {
            Next::Clause
        };
        Scope { next, ..*self }
    }

    /// Behind a token.
    pub(crate) fn behind(&self, token: &Spelled<'_>) -> Scope {
        match token.kind {
            SpelledKind::Comment => *self,
            SpelledKind::Symbol(symbol) => self.behind_symbol(symbol),
            _ if self.in_annotation => Scope {
                in_annotation: false,
                ..*self
            },
            SpelledKind::Id => self.behind_id(token.text),
            SpelledKind::Text => self.behind_name(),
        }
    }

    /// Behind a name.
    fn behind_name(&self) -> Scope {
        let next = match self.next {
            Next::Name => Next::Clause,
            next => next,
        };
        Scope { next, ..*self }
    }

    /// Behind an id.
    fn behind_id(&self, id: &str) -> Scope {
        match self.next {
            Next::Declaration => self.behind_keyword(id),
            Next::Clause => self.behind_clause_word(id),
            Next::Part => self.behind_part_word(id),
            _ => self.behind_name(),
        }
    }

    /// Behind the word that begins a declaration.
    fn behind_keyword(&self, id: &str) -> Scope {
        let (declared, next) = match id {
            "external" => (Declared::Other, Next::Declaration),
            "entity" => (Declared::Entity, Next::Name),
            "action" => (Declared::Action, Next::Name),
            "namespace" => (Declared::Other, Next::Block),
            _ => (Declared::Other, Next::Other),
        };
        Scope {
            declared,
            next,
            ..*self
        }
    }

    /// Behind a word that follows the names of what is declared.
    fn behind_clause_word(&self, id: &str) -> Scope {
        let next = match id {
            "in" => Next::Paths,
            "appliesTo" => Next::Parts,
            _ => Next::Other,
        };
        Scope { next, ..*self }
    }

    /// Behind the word of a part of an `appliesTo`.
    fn behind_part_word(&self, id: &str) -> Scope {
        let next = match id {
            "principal" | "resource" => Next::ListingPart,
            _ => Next::Other,
        };
        Scope { next, ..*self }
    }

    /// Behind a symbol.
    fn behind_symbol(&self, symbol: Symbol) -> Scope {
        match symbol {
            Symbol::At => Scope {
                in_annotation: true,
                ..*self
            },
            Symbol::OpenBracket => Scope {
                in_brackets: true,
                next: Next::Other,
                ..*self
            },
            Symbol::CloseBracket => Scope {
                in_brackets: false,
                ..self.behind_path()
            },
            Symbol::OpenBrace => self.behind_opening(),
            Symbol::CloseBrace => self.behind_closing(),
            Symbol::Semicolon => Scope {
                next: Next::Declaration,
                ..*self
            },
            Symbol::Comma => self.behind_comma(),
            Symbol::Colon => self.behind_colon(),
            Symbol::Equals => Scope {
                next: Next::Other,
                ..*self
            },
            _ => *self,
        }
    }

    /// Behind a colon.
    fn behind_colon(&self) -> Scope {
        let next = match self.next {
            Next::ListingPart => Next::Paths,
            _ => Next::Other,
        };
        Scope { next, ..*self }
    }

    /// Behind a comma.
    fn behind_comma(&self) -> Scope {
        if self.in_brackets {
            return *self;
        }
        let next = if self.parts > 0 && self.parts == self.level {
            Next::Part
        } else if self.next == Next::Clause {
            Next::Name
        } else {
            self.next
        };
        Scope { next, ..*self }
    }

    /// Behind an opening brace.
    fn behind_opening(&self) -> Scope {
        let level = self.level.saturating_add(1);
        match self.next {
            Next::Block => Scope {
                level,
                in_block: true,
                next: Next::Declaration,
                ..*self
            },
            Next::Parts => Scope {
                level,
                parts: level,
                next: Next::Part,
                ..*self
            },
            _ => Scope {
                level,
                next: Next::Other,
                ..*self
            },
        }
    }

    /// Behind a closing brace.
    fn behind_closing(&self) -> Scope {
        let level = self.level.saturating_sub(1);
        if self.next == Next::Declaration {
            return Scope {
                level,
                in_block: false,
                ..*self
            };
        }
        let parts = if self.parts > level { 0 } else { self.parts };
        Scope {
            level,
            parts,
            next: Next::Other,
            ..*self
        }
    }
}
