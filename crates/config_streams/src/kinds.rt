//! The kinds of streams, by their words and arguments.

ghost use Rattle.std.specs.Prelude.{◌≡◌, Ok, false};
ghost use Rattle.pred_eval.specs.Tree.{tree_of, trees_in, Order};
ghost use Rattle.ev_types.specs.declared.field.Field.TheVariants.{Metric};
ghost use Rattle.config_terms.specs.Steps.{Gives, GivesAs};
ghost use Rattle.config_streams.specs.Table.{row_of, most_idle as most_idle_of, tag_rules as tag_trees, all_tagged as all_tagged_by, expired_rule as expired_tree};
ghost use Rattle.config_streams.specs.Given.{kind_in, one_set_in, made_as};

use crate::given::Given;
use config_terms::{ConfigFault, StreamWord};
use ev_types::{Field, Sets, Text, Value};
use pred_eval::{Ordering, Rule, Rules};
use std::alloc::Global;
use stream_plan::{Kind, MAX_SECS};

/// The kind of a stream that begins with the word, and the number of its arguments. `in_fork`: the stream is below a
/// `by`.
#[tactic(auto, unfolding(crate::specs::Table::row_of))]
pub(crate) fn kind_of(
    alloc: Global,
    word: StreamWord,
    in_fork: bool,
    given: Given<'_>,
) -> Result<(Kind, usize), ConfigFault>
    ensures { GivesAs made_as result (kind_in given.entry (row_of in_fork word)) }
{
    match word {
        StreamWord::Index => Ok((Kind::Index, 0)),
        StreamWord::Notice => Ok((Kind::Notice(given.text(alloc, 0)?), 1)),
        StreamWord::Sdo => Ok((Kind::Sdo, 0)),
        StreamWord::Where => Ok((Kind::Where(given.rule(alloc, 0)?), 1)),
        StreamWord::With if given.is_map_at(0) => Ok((Kind::With(given.sets(alloc, 0)?), 1)),
        StreamWord::With => Ok((Kind::With(one_set(alloc, given)?), 2)),
        StreamWord::Default if given.is_map_at(0) => Ok((Kind::Default(given.sets(alloc, 0)?), 1)),
        StreamWord::Default => Ok((Kind::Default(one_set(alloc, given)?), 2)),
        StreamWord::Tag => Ok((Kind::Tag(given.texts(alloc, 0)?), 1)),
        StreamWord::By => by(alloc, in_fork, given),
        StreamWord::Changed => changed(alloc, given),
        StreamWord::Runs => {
            let count = given.count(0)?;
            let field = given.field(alloc, 1)?;
            Ok((Kind::Runs { count, field }, 2))
        }
        StreamWord::Throttle => {
            let count = given.count(0)?;
            let secs = given.secs(1)?;
            Ok((Kind::Throttle { count, secs }, 2))
        }
        StreamWord::Rollup => {
            let count = given.count(0)?;
            let secs = given.secs(1)?;
            Ok((Kind::Rollup { count, secs }, 2))
        }
        StreamWord::Batch => {
            let count = given.count(0)?;
            let secs = given.secs(1)?;
            Ok((Kind::Batch { count, secs }, 2))
        }
        StreamWord::Stable => {
            let secs = given.secs(0)?;
            let field = given.field(alloc, 1)?;
            Ok((Kind::Stable { secs, field }, 2))
        }
        StreamWord::Coalesce if given.is_number_at(0) => Ok((
            Kind::Coalesce {
                secs: given.secs(0)?,
            },
            1,
        )),
        StreamWord::Coalesce => Ok((Kind::Coalesce { secs: 1 }, 0)),
        StreamWord::Smap => Ok((Kind::Smap(given.fold(0)?), 1)),
        StreamWord::FixedEvent => Ok((
            Kind::FixedEvent {
                count: given.count(0)?,
            },
            1,
        )),
        StreamWord::MovingEvent => Ok((
            Kind::MovingEvent {
                count: given.count(0)?,
            },
            1,
        )),
        StreamWord::FixedTime => Ok((
            Kind::FixedTime {
                secs: given.secs(0)?,
            },
            1,
        )),
        StreamWord::MovingTime => Ok((
            Kind::MovingTime {
                secs: given.secs(0)?,
            },
            1,
        )),
        StreamWord::Expired => Ok((Kind::Where(expired_rule(alloc)?), 0)),
        StreamWord::Tagged => {
            let tags = given.some_texts(alloc, 0)?;
            Ok((Kind::Where(all_tagged(alloc, tags.as_slice())?), 1))
        }
        StreamWord::Over => Ok((
            Kind::Where(order_rule(Ordering::Greater, given.number(0)?)),
            1,
        )),
        StreamWord::Under => Ok((Kind::Where(order_rule(Ordering::Less, given.number(0)?)), 1)),
    }
}

#[tactic(auto, unfolding(crate::specs::Table::row_of))]
fn by(alloc: Global, in_fork: bool, given: Given<'_>) -> Result<(Kind, usize), ConfigFault>
    ensures { GivesAs made_as result (kind_in given.entry (row_of in_fork StreamWord.By)) }
{
    let fields = given.fields(alloc, 0)?;
    if given.is_map_at(1) {
        let idle = Some(given.idle(most_idle(in_fork), 1)?);
        return Ok((Kind::By { fields, idle }, 2));
    }
    Ok((Kind::By { fields, idle: None }, 1))
}

#[tactic(auto, unfolding(crate::specs::Table::row_of))]
fn changed(alloc: Global, given: Given<'_>) -> Result<(Kind, usize), ConfigFault>
    ensures { GivesAs made_as result (kind_in given.entry (row_of false StreamWord.Changed)) }
{
    let field = given.field(alloc, 0)?;
    if given.is_map_at(1) {
        let init = Some(given.init(alloc, 1)?);
        return Ok((Kind::Changed { field, init }, 2));
    }
    Ok((Kind::Changed { field, init: None }, 1))
}

/// The one set that is written without brackets.
fn one_set(alloc: Global, given: Given<'_>) -> Result<Sets, ConfigFault>
    ensures { Gives result (one_set_in given.entry) }
{
    let field = given.field(alloc, 0)?;
    let set = given.set(alloc, field, 1)?;
    let mut sets = Sets::fresh(alloc);
    sets.push(alloc, set)?;
    Ok(sets)
}

/// The most seconds for which a fork lives without an event: below another `by` no number is in range.
fn most_idle(in_fork: bool) -> u32
    ensures { result ≡ most_idle_of in_fork }
{
    if in_fork { 0 } else { MAX_SECS }
}

fn order_rule(order: Ordering, number: i64) -> Rule
    ensures { tree_of result ≡ Order Metric order number }
{
    Rule::Order {
        field: Field::Metric,
        order,
        number,
    }
}

fn expired_rule(alloc: Global) -> Result<Rule, ConfigFault>
    ensures { GivesAs tree_of result (Ok expired_tree) }
{
    let expired = Text::from_str(alloc, "expired")?;
    Ok(Rule::Equal {
        field: Field::State,
        value: Value::Text(expired),
    })
}

/// The rules that an event has the tags.
fn tag_rules(alloc: Global, tags: &[Text]) -> Result<Rules, ConfigFault>
    ensures { GivesAs (λ rules. trees_in rules.items) result (Ok (tag_trees tags.now)) }
{
    let mut rules = Rules::new(alloc);
    for tag in tags {
        rules.push(Rule::Tagged(tag.copy(alloc)?))?;
    }
    Ok(rules)
}

/// The rule that an event has all the tags; one tag represents itself.
#[tactic(auto, using(crate::proofs::CodeLaws::one_tag, crate::proofs::CodeLaws::many_tags))]
fn all_tagged(alloc: Global, tags: &[Text]) -> Result<Rule, ConfigFault>
    ensures { GivesAs tree_of result (Ok (all_tagged_by tags.now)) }
{
    if tags.len() == 1 {
        return Ok(Rule::Tagged(tags[0].copy(alloc)?));
    }
    let rules = tag_rules(alloc, tags)?;
    Ok(Rule::All(rules))
}
