use ev_types::Text;

/// A kind of brackets.
#[derive(Clone, Copy, Debug, PartialEq, Eq)]
pub enum Bracket {
    /// `( )`
    Round,
    /// `[ ]`
    Square,
    /// `{ }`
    Curly,
}

/// A form without parts.
#[derive(Debug, Drop)]
pub enum Atom {
    Text(Text),
    Pattern(Text),
    Number(i64),
    Keyword(Text),
    Symbol(Text),
}

/// What a text is cut into.
#[derive(Debug, Drop)]
pub(crate) enum Piece {
    /// A separator or a comment.
    Blank,
    Opening(Bracket),
    Closing(Bracket),
    Whole(Atom),
}

/// What begins at a byte that begins a piece.
#[derive(Clone, Copy, PartialEq, Eq)]
pub(crate) enum Class {
    Separator,
    Comment,
    Opens(Bracket),
    Closes(Bracket),
    Quote,
    /// A pattern, where a quote follows, else a run.
    Hash,
    /// A number, keyword or symbol.
    Run,
}

/// What is quoted.
#[derive(Clone, Copy, PartialEq, Eq)]
pub(crate) enum Quoted {
    Text,
    Pattern,
}
