use ev_types::Text;

/// A form, and its place in the text.
#[derive(Drop)]
#[cycle(forms)]
pub struct Form {
    pub shape: Shape,
    /// The place of its first byte, a bracket, quote or `#` included.
    pub start: usize,
    /// The place just past its last byte.
    pub end: usize,
}

/// What a form is.
#[derive(Drop)]
#[cycle(forms)]
pub enum Shape {
    /// `(..)`
    List(Forms),
    /// `[..]`
    Vector(Forms),
    /// `{..}`
    Map(Forms),
    /// `".."`, with its escapes replaced by the bytes that they represent.
    Text(Text),
    /// `#".."`, as it is written between the quotes.
    Pattern(Text),
    Number(i64),
    /// The name after a `:`.
    Keyword(Text),
    Symbol(Text),
}

/// Forms, in their order in the text.
pub type Forms = Vec<Form>;
