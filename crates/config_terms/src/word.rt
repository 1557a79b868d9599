//! The words of configurations.

ghost use Rattle.std.specs.Prelude.{◌≡◌, IfOk};
ghost use Rattle.std.specs.Str.{bytes_eq};
ghost use Rattle.ev_types.specs.Names.{named_field};
ghost use Rattle.config_terms.specs.Words.{top_word, stream_word, rule_word, same_field, fold_word};

use ev_types::{Field, Fold, Memory, Text};
use pred_eval::Ordering;
use std::alloc::Global;

/// A word that begins a form at the top.
#[derive(Clone, Copy, Debug, PartialEq, Eq)]
pub enum TopWord {
    TcpServer,
    PeriodicallyExpire,
    Streams,
    Let,
}

/// A word that begins a stream.
#[derive(Clone, Copy, Debug, PartialEq, Eq)]
pub enum StreamWord {
    Index,
    Notice,
    Sdo,
    Where,
    With,
    Default,
    Tag,
    By,
    Changed,
    Runs,
    Throttle,
    Rollup,
    Batch,
    Stable,
    FixedEvent,
    MovingEvent,
    FixedTime,
    MovingTime,
    Coalesce,
    Smap,
    Expired,
    Tagged,
    Over,
    Under,
}

/// A word that begins a predicate.
#[derive(Clone, Copy, Debug, PartialEq, Eq)]
pub enum RuleWord {
    And,
    Or,
    Not,
    Tagged,
    Equal,
    NotEqual,
    Order(Ordering),
    Like,
}

/// Whether the name is the text.
pub fn is(name: &[u8], text: &[u8]) -> bool
    ensures { result ≡ bytes_eq name.now text.now }
{
    name == text
}

/// The word of this name that begins a form at the top.
#[tactic(auto, unfolding(crate::specs::Words::top_word))]
pub fn top_word(name: &Text) -> Option<TopWord>
    ensures { result ≡ top_word name.now }
{
    match name.as_str() {
        "tcp-server" => Some(TopWord::TcpServer),
        "periodically-expire" => Some(TopWord::PeriodicallyExpire),
        "streams" => Some(TopWord::Streams),
        "let" => Some(TopWord::Let),
        _ => None,
    }
}

/// The word of this name that begins a stream.
#[tactic(auto, unfolding(crate::specs::Words::stream_word))]
pub fn stream_word(name: &Text) -> Option<StreamWord>
    ensures { result ≡ stream_word name.now }
{
    match name.as_str() {
        "index" => Some(StreamWord::Index),
        "notice" => Some(StreamWord::Notice),
        "sdo" => Some(StreamWord::Sdo),
        "where" => Some(StreamWord::Where),
        "with" => Some(StreamWord::With),
        "default" => Some(StreamWord::Default),
        "tag" => Some(StreamWord::Tag),
        "by" => Some(StreamWord::By),
        "changed" => Some(StreamWord::Changed),
        "runs" => Some(StreamWord::Runs),
        "throttle" => Some(StreamWord::Throttle),
        "rollup" => Some(StreamWord::Rollup),
        "batch" => Some(StreamWord::Batch),
        "stable" => Some(StreamWord::Stable),
        "coalesce" => Some(StreamWord::Coalesce),
        "smap" => Some(StreamWord::Smap),
        "fixed-event-window" => Some(StreamWord::FixedEvent),
        "moving-event-window" => Some(StreamWord::MovingEvent),
        "fixed-time-window" => Some(StreamWord::FixedTime),
        "moving-time-window" => Some(StreamWord::MovingTime),
        "expired" => Some(StreamWord::Expired),
        "tagged" => Some(StreamWord::Tagged),
        "over" => Some(StreamWord::Over),
        "under" => Some(StreamWord::Under),
        _ => None,
    }
}

/// The word of this name that begins a predicate.
#[tactic(auto, unfolding(crate::specs::Words::rule_word))]
pub(crate) fn rule_word(name: &Text) -> Option<RuleWord>
    ensures { result ≡ rule_word name.now }
{
    match name.as_str() {
        "and" => Some(RuleWord::And),
        "or" => Some(RuleWord::Or),
        "not" => Some(RuleWord::Not),
        "tagged" => Some(RuleWord::Tagged),
        "like" => Some(RuleWord::Like),
        "=" => Some(RuleWord::Equal),
        "not=" => Some(RuleWord::NotEqual),
        "<" => Some(RuleWord::Order(Ordering::Less)),
        "<=" => Some(RuleWord::Order(Ordering::LessEqual)),
        ">" => Some(RuleWord::Order(Ordering::Greater)),
        ">=" => Some(RuleWord::Order(Ordering::GreaterEqual)),
        _ => None,
    }
}

/// The field that a keyword of this name means. Some names mean none.
pub fn field_of(alloc: Global, name: &Text) -> Result<Option<Field>, Memory>
    ensures { IfOk result (λ field. field ≡ named_field name.now) }
{
    let name = name.copy(alloc)?;
    Ok(Field::named(name))
}

/// Whether the two fields have one name.
pub(crate) fn same_field(a: &Field, b: &Field) -> bool
    ensures { result ≡ same_field a.now b.now }
{
    is(a.name().as_bytes(), b.name().as_bytes())
}

/// The fold of this name.
#[tactic(auto, unfolding(crate::specs::Words::fold_word))]
pub fn fold_word(name: &Text) -> Option<Fold>
    ensures { result ≡ fold_word name.now }
{
    match name.as_str() {
        "folds/sum" => Some(Fold::Sum),
        "folds/minimum" => Some(Fold::Minimum),
        "folds/maximum" => Some(Fold::Maximum),
        "folds/count" => Some(Fold::Count),
        _ => None,
    }
}
