use ev_types::Text;
use pred_eval::Ordering;

/// A token of a query.
#[derive(Drop)]
pub(crate) enum Token {
    /// `(`
    Open,
    /// `)`
    Close,
    And,
    Or,
    Not,
    True,
    False,
    Nil,
    Tagged,
    Operator(Operator),
    /// A name that is not one of the words above.
    Name(Text),
    Number(i64),
    /// What a string in double quotes holds.
    Quoted(Text),
}

/// How a field is tested.
#[derive(Clone, Copy, PartialEq, Eq)]
pub(crate) enum Operator {
    /// `=`
    Equal,
    /// `!=`
    Unequal,
    /// `<`, `<=`, `>` or `>=`
    Order(Ordering),
    /// `=~`
    Wild,
    /// `~=`
    Search,
}
