//! The test whether the keys of a configuration are apart.

ghost use Rattle.std.specs.Prelude.{◌≡◌};
ghost use Rattle.std.specs.List.{list_all, list_any};
ghost use Rattle.ev_types.specs.Rebirth.{names};
ghost use Rattle.index_log.specs.OfKey.{is_index_field, are_index_fields};
ghost use Rattle.stream_plan.specs.Search.{opened};
ghost use Rattle.stream_plan.specs.Tree.{kind_tree, list_trees, plan_tree};
ghost use Rattle.stream_meaning.specs.Keys.{same_index_field, sets_one, kind_keeps, stream_keeps, plan_keeps};
ghost use Rattle.key_laws.specs.Apart.{has_all, keeps_field, keeps_nothing, keys_apart, expiry_keeps, plan_apart, splits, stream_apart};

use ev_types::{Expiry, Field, KeepKey, Set};
use stream_plan::{Kind, Plan, Stream};

/// Whether what is noticed of each key of the fields depends on what comes of this key alone. The fields are the host,
/// the service or both. No stream of the plan sets one of them, each stream that keeps something is below a `by` that
/// has all of them, and events that expire keep them.
pub fn keys_are_apart(fields: &[Field], plan: &Plan, expiry: &Option<Expiry>) -> bool
    ensures { result ≡ keys_apart fields.now (plan_tree plan.now) expiry.now }
{
    are_index_fields(fields)
        && plan_apart(fields, plan.streams.as_slice())
        && expiry_keeps(fields, expiry)
}

/// Whether the keys are apart in all of the streams.
#[cycle(apart)]
fn plan_apart(fields: &[Field], streams: &[Stream]) -> bool
    ensures { result ≡ plan_apart fields.now (list_trees streams.now) }
{
    for stream in streams {
        if !stream_apart(fields, stream) {
            return false;
        }
    }
    true
}

#[cycle(apart)]
#[tactic(auto, unfolding(stream_plan::specs::Search::opened))]
fn stream_apart(fields: &[Field], stream: &Stream) -> bool
    ensures { result ≡ stream_apart fields.now (opened stream.now) }
{
    let kept = plan_keeps(fields, &stream.children) && plan_keeps(fields, &stream.otherwise);
    let apart = plan_apart(fields, &stream.children) && plan_apart(fields, &stream.otherwise);
    let by = splits(fields, &stream.kind) && kept;
    let plain = keeps_nothing(&stream.kind) && kind_keeps(fields, &stream.kind) && apart;
    by || plain
}

fn splits(fields: &[Field], kind: &Kind) -> bool
    ensures { result ≡ splits fields.now (kind_tree kind.now) }
{
    match kind {
        Kind::By { fields: others, .. } => has_all(fields, others.as_slice()),
        _ => false,
    }
}

fn has_all(fields: &[Field], others: &[Field]) -> bool
    ensures { result ≡ has_all fields.now others.now }
{
    fields.iter().all(|field| is_one_of(field, others))
}

fn keeps_nothing(kind: &Kind) -> bool
    ensures { result ≡ keeps_nothing (kind_tree kind.now) }
{
    matches!(
        kind,
        Kind::Index
            | Kind::Notice(_)
            | Kind::Sdo
            | Kind::Where(_)
            | Kind::With(_)
            | Kind::Default(_)
            | Kind::Tag(_)
    )
}

fn are_index_fields(fields: &[Field]) -> bool
    ensures { result ≡ are_index_fields fields.now }
{
    fields.iter().all(is_index_field)
}

fn is_index_field(field: &Field) -> bool
    ensures { result ≡ is_index_field field.now }
{
    matches!(field, Field::Host | Field::Service)
}

fn expiry_keeps(fields: &[Field], expiry: &Option<Expiry>) -> bool
    ensures { result ≡ expiry_keeps fields.now expiry.now }
{
    match expiry {
        Some(expiry) => keeps_fields(expiry.keep.as_slice(), fields),
        None => true,
    }
}

fn keeps_fields(keep: &[KeepKey], fields: &[Field]) -> bool
    ensures { result ≡ list_all (keeps_field keep.now) fields.now }
{
    fields.iter().all(|field| keeps_field(keep, field))
}

fn keeps_field(keep: &[KeepKey], field: &Field) -> bool
    ensures { result ≡ keeps_field keep.now field.now }
{
    keep.iter().any(|key| names(key, field))
}

fn names(key: &KeepKey, field: &Field) -> bool
    ensures { result ≡ names field.now key.now }
{
    match key {
        KeepKey::Field(named) => named == field,
        KeepKey::Tags => false,
    }
}

/// Whether the streams and those below them leave the fields as they are.
#[cycle(keep)]
fn plan_keeps(fields: &[Field], streams: &[Stream]) -> bool
    ensures { result ≡ plan_keeps fields.now (list_trees streams.now) }
{
    for stream in streams {
        if !stream_keeps(fields, stream) {
            return false;
        }
    }
    true
}

#[cycle(keep)]
#[tactic(auto, unfolding(stream_plan::specs::Search::opened))]
fn stream_keeps(fields: &[Field], stream: &Stream) -> bool
    ensures { result ≡ stream_keeps fields.now (opened stream.now) }
{
    let own = kind_keeps(fields, &stream.kind);
    let below = plan_keeps(fields, &stream.children);
    let beside = plan_keeps(fields, &stream.otherwise);
    own && below && beside
}

fn kind_keeps(fields: &[Field], kind: &Kind) -> bool
    ensures { result ≡ kind_keeps fields.now (kind_tree kind.now) }
{
    match kind {
        Kind::With(sets) | Kind::Default(sets) => !sets_one(fields, sets.as_slice()),
        _ => true,
    }
}

fn sets_one(fields: &[Field], sets: &[Set]) -> bool
    ensures { result ≡ sets_one fields.now sets.now }
{
    sets.iter().any(|set| is_one_of(&set.field, fields))
}

fn is_one_of(field: &Field, fields: &[Field]) -> bool
    ensures { result ≡ list_any (same_index_field field.now) fields.now }
{
    fields.iter().any(|other| same_index_field(field, other))
}

fn same_index_field(a: &Field, b: &Field) -> bool
    ensures { result ≡ same_index_field a.now b.now }
{
    matches!(
        (a, b),
        (Field::Host, Field::Host) | (Field::Service, Field::Service)
    )
}
