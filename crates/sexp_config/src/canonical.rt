//! The canonical forms of a configuration.

ghost use Rattle.std.specs.Prelude.{◌≡◌, ◌++◌, ◌∷◌, [], map as each_of, pos, codes, IfOk, OnOk};
ghost use Rattle.pred_eval.specs.Tree.{tree_of, trees_in, Search as search_tree};
ghost use Rattle.stream_plan.specs.Tree.{kind_tree, stream_tree as plain_stream, list_trees};
ghost use Rattle.sexp_config.specs.Canonical.{bare_form, bare_forms, symbol_form, text_form, number_form, vector_form, map_form, worded_form, field_form, rule_field_form, rule_form as rule_form_of, rule_forms, set_forms, init_forms, idle_forms, kind_forms as forms_of_kind, else_forms, stream_form as stream_form_of, stream_forms, keep_form, server_form as server_form_of, expiry_form as expiry_form_of, expiry_forms, streams_form as streams_form_of, config_forms as forms_of_config};
ghost use Rattle.config_terms.specs.Words.{rule_text, fold_text};
ghost use Rattle.config_terms.specs.declared.word.RuleWord.TheVariants.{Order as order_word};

use crate::Config;
use crate::bare::{
    field, keyword, list, map, number, pair, pattern, put, symbol, text, value, vector, word,
    word_with, word_with_two,
};
use ev_types::{Expiry, Field, Fold, KeepKey, Memory, Set, Text, Value};
use pred_eval::{Ordering, Rule};
use sexp_read::{Form, Forms};
use std::alloc::Global;
use stream_plan::{Kind, Stream};

/// The field of a predicate: an attribute is a keyword, any other field is bare.
fn rule_field(alloc: Global, named: &Field) -> Result<Form, Memory>
    ensures { IfOk result (λ form. bare_form form ≡ rule_field_form named.now) }
{
    match named {
        Field::Attribute(key) => keyword(alloc, key.as_str()),
        _ => symbol(alloc, named.name()),
    }
}

fn order_name(order: Ordering) -> &'static str
    ensures { result.now ≡ rule_text (order_word order) }
{
    match order {
        Ordering::Less => "<",
        Ordering::LessEqual => "<=",
        Ordering::Greater => ">",
        Ordering::GreaterEqual => ">=",
    }
}

/// A test of a field against the form after it.
fn test_form(alloc: Global, name: &str, named: &Field, against: Form) -> Result<Form, Memory>
    ensures { IfOk result (λ form. bare_form form
        ≡ worded_form name.now (rule_field_form named.now ∷ bare_form against ∷ [])) }
{
    let first = rule_field(alloc, named)?;
    Ok(list(word_with_two(alloc, name, first, against)?))
}

fn search_form(alloc: Global, named: &Field, sought: &Text) -> Result<Form, Memory>
    ensures { IfOk result (λ form. bare_form form
        ≡ rule_form_of (search_tree named.now sought.now)) }
{
    let first = rule_field(alloc, named)?;
    Ok(list(pair(alloc, first, pattern(alloc, sought)?)?))
}

/// A predicate.
#[cycle(canonical_rule)]
fn rule_form(alloc: Global, rule: &Rule) -> Result<Form, Memory>
    ensures { IfOk result (λ form. bare_form form ≡ rule_form_of (tree_of rule.now)) }
{
    match rule {
        Rule::Always => symbol(alloc, "true"),
        Rule::Never => symbol(alloc, "false"),
        Rule::Not(one) => {
            let part = rule_form(alloc, one)?;
            Ok(list(word_with(alloc, "not", part)?))
        }
        Rule::All(parts) => joined(alloc, "and", parts.as_slice()),
        Rule::Any(parts) => joined(alloc, "or", parts.as_slice()),
        Rule::Tagged(tag) => {
            let tag = text(alloc, tag)?;
            Ok(list(word_with(alloc, "tagged", tag)?))
        }
        Rule::Equal {
            field: named,
            value: held,
        } => test_form(alloc, "=", named, value(alloc, held)?),
        Rule::Order {
            field: named,
            order,
            number: bound,
        } => test_form(alloc, order_name(*order), named, number(*bound)),
        Rule::Wild {
            field: named,
            pattern: sought,
        } => test_form(alloc, "like", named, text(alloc, sought)?),
        Rule::Search {
            field: named,
            pattern: sought,
        } => search_form(alloc, named, sought),
    }
}

/// Predicates after the word that joins them.
#[cycle(canonical_rule)]
#[tactic(auto, using(crate::proofs::CanonicalLaws::rules_more, crate::proofs::CanonicalLaws::rules_all))]
fn joined(alloc: Global, name: &str, parts: &[Rule]) -> Result<Form, Memory>
    ensures { IfOk result (λ form. bare_form form
        ≡ worded_form name.now (rule_forms (trees_in parts.now))) }
{
    let mut forms = word(alloc, name)?;
    for part in parts {
        let form = rule_form(alloc, part)?;
        put(&mut forms, form)?;
    }
    Ok(list(forms))
}

/// The map of fields and values.
#[tactic(auto, using(crate::proofs::CanonicalLaws::sets_more, crate::proofs::CanonicalLaws::sets_all))]
fn sets_form(alloc: Global, sets: &[Set]) -> Result<Form, Memory>
    ensures { IfOk result (λ form. bare_form form ≡ map_form (set_forms sets.now)) }
{
    let mut forms = Vec::new(alloc);
    for set in sets {
        put(&mut forms, field(alloc, &set.field)?)?;
        put(&mut forms, value(alloc, &set.value)?)?;
    }
    Ok(map(forms))
}

/// The vector of texts.
#[tactic(auto, using(crate::proofs::CanonicalLaws::texts_more, crate::proofs::CanonicalLaws::texts_all))]
fn texts_form(alloc: Global, texts: &[Text]) -> Result<Form, Memory>
    ensures { IfOk result (λ form. bare_form form ≡ vector_form (each_of text_form texts.now)) }
{
    let mut forms = Vec::new(alloc);
    for one in texts {
        put(&mut forms, text(alloc, one)?)?;
    }
    Ok(vector(forms))
}

/// The vector of fields.
#[tactic(auto, using(crate::proofs::CanonicalLaws::fields_more, crate::proofs::CanonicalLaws::fields_all))]
fn fields_form(alloc: Global, fields: &[Field]) -> Result<Form, Memory>
    ensures { IfOk result (λ form. bare_form form
        ≡ vector_form (each_of field_form fields.now)) }
{
    let mut forms = Vec::new(alloc);
    for one in fields {
        put(&mut forms, field(alloc, one)?)?;
    }
    Ok(vector(forms))
}

/// What a field was before the first event, where that is said.
fn put_init(alloc: Global, init: &Option<Value>, forms: &mut Forms) -> Result<(), Memory>
    ensures { OnOk result (bare_forms forms.new.items ≡ bare_forms forms.old.items
        ++ init_forms init.now) }
{
    if let Some(init) = init {
        let key = keyword(alloc, "init")?;
        let entry = pair(alloc, key, value(alloc, init)?)?;
        put(forms, map(entry))?;
    }
    Ok(())
}

fn changed_forms(alloc: Global, named: &Field, init: &Option<Value>) -> Result<Forms, Memory>
    ensures { IfOk result (λ forms. bare_forms forms.items
        ≡ symbol_form (codes "changed") ∷ field_form named.now ∷ init_forms init.now) }
{
    let mut forms = word_with(alloc, "changed", field(alloc, named)?)?;
    put_init(alloc, init, &mut forms)?;
    Ok(forms)
}

/// After how long without an event a fork ends, where that is said.
fn put_idle(alloc: Global, idle: Option<u32>, forms: &mut Forms) -> Result<(), Memory>
    ensures { OnOk result (bare_forms forms.new.items ≡ bare_forms forms.old.items
        ++ idle_forms idle) }
{
    if let Some(secs) = idle {
        let key = keyword(alloc, "idle")?;
        put(forms, map(pair(alloc, key, number(i64::from(secs)))?))?;
    }
    Ok(())
}

fn by_forms(alloc: Global, fields: &[Field], idle: Option<u32>) -> Result<Forms, Memory>
    ensures { IfOk result (λ forms. bare_forms forms.items ≡ symbol_form (codes "by")
        ∷ vector_form (each_of field_form fields.now) ∷ idle_forms idle) }
{
    let mut forms = word_with(alloc, "by", fields_form(alloc, fields)?)?;
    put_idle(alloc, idle, &mut forms)?;
    Ok(forms)
}

fn fold_name(fold: Fold) -> &'static str
    ensures { result.now ≡ fold_text fold }
{
    match fold {
        Fold::Sum => "folds/sum",
        Fold::Minimum => "folds/minimum",
        Fold::Maximum => "folds/maximum",
        Fold::Count => "folds/count",
    }
}

/// A word and a number.
fn counted(alloc: Global, name: &str, count: u32) -> Result<Forms, Memory>
    ensures { IfOk result (λ forms. bare_forms forms.items
        ≡ symbol_form name.now ∷ number_form (pos count) ∷ []) }
{
    word_with(alloc, name, number(i64::from(count)))
}

/// A word and two numbers.
fn windowed(alloc: Global, name: &str, count: u32, secs: u32) -> Result<Forms, Memory>
    ensures { IfOk result (λ forms. bare_forms forms.items
        ≡ symbol_form name.now ∷ number_form (pos count) ∷ number_form (pos secs) ∷ []) }
{
    word_with_two(
        alloc,
        name,
        number(i64::from(count)),
        number(i64::from(secs)),
    )
}

/// A word, a number and a field.
fn compared(alloc: Global, name: &str, count: u32, named: &Field) -> Result<Forms, Memory>
    ensures { IfOk result (λ forms. bare_forms forms.items
        ≡ symbol_form name.now ∷ number_form (pos count) ∷ field_form named.now ∷ []) }
{
    let named = field(alloc, named)?;
    word_with_two(alloc, name, number(i64::from(count)), named)
}

/// The word of a kind, and the arguments before the streams.
fn kind_forms(alloc: Global, kind: &Kind) -> Result<Forms, Memory>
    ensures { IfOk result (λ forms. bare_forms forms.items
        ≡ forms_of_kind (kind_tree kind.now)) }
{
    match kind {
        Kind::Index => word(alloc, "index"),
        Kind::Notice(name) => word_with(alloc, "notice", text(alloc, name)?),
        Kind::Sdo => word(alloc, "sdo"),
        Kind::Where(rule) => word_with(alloc, "where", rule_form(alloc, rule)?),
        Kind::With(sets) => word_with(alloc, "with", sets_form(alloc, sets.as_slice())?),
        Kind::Default(sets) => word_with(alloc, "default", sets_form(alloc, sets.as_slice())?),
        Kind::Tag(tags) => word_with(alloc, "tag", texts_form(alloc, tags.as_slice())?),
        Kind::By { fields, idle } => by_forms(alloc, fields.as_slice(), *idle),
        Kind::Changed { field: named, init } => changed_forms(alloc, named, init),
        Kind::Runs {
            count,
            field: named,
        } => compared(alloc, "runs", *count, named),
        Kind::Throttle { count, secs } => windowed(alloc, "throttle", *count, *secs),
        Kind::Rollup { count, secs } => windowed(alloc, "rollup", *count, *secs),
        Kind::Batch { count, secs } => windowed(alloc, "batch", *count, *secs),
        Kind::Stable { secs, field: named } => compared(alloc, "stable", *secs, named),
        Kind::FixedEvent { count } => counted(alloc, "fixed-event-window", *count),
        Kind::MovingEvent { count } => counted(alloc, "moving-event-window", *count),
        Kind::FixedTime { secs } => counted(alloc, "fixed-time-window", *secs),
        Kind::MovingTime { secs } => counted(alloc, "moving-time-window", *secs),
        Kind::Coalesce { secs } => counted(alloc, "coalesce", *secs),
        Kind::Smap(fold) => word_with(alloc, "smap", symbol(alloc, fold_name(*fold))?),
    }
}

/// A stream with those below it.
#[cycle(canonical_stream)]
fn stream_form(alloc: Global, stream: &Stream) -> Result<Form, Memory>
    ensures { IfOk result (λ form. bare_form form ≡ stream_form_of (plain_stream stream.now)) }
{
    if let Kind::Index = stream.kind {
        return symbol(alloc, "index");
    }
    let mut forms = kind_forms(alloc, &stream.kind)?;
    put_streams(alloc, &stream.children, &mut forms)?;
    put_else(alloc, &stream.otherwise, &mut forms)?;
    Ok(list(forms))
}

/// Adds streams.
#[cycle(canonical_stream)]
#[tactic(auto, using(crate::proofs::CanonicalLaws::streams_all))]
fn put_streams(alloc: Global, streams: &[Stream], forms: &mut Forms) -> Result<(), Memory>
    ensures { OnOk result (bare_forms forms.new.items ≡ bare_forms forms.old.items
        ++ stream_forms (list_trees streams.now)) }
{
    for stream in streams {
        let form = stream_form(alloc, stream)?;
        put(forms, form)?;
    }
    Ok(())
}

/// Adds the streams that get the rest, where there are some.
#[cycle(canonical_stream)]
fn put_else(alloc: Global, streams: &[Stream], forms: &mut Forms) -> Result<(), Memory>
    ensures { OnOk result (bare_forms forms.new.items ≡ bare_forms forms.old.items
        ++ else_forms (stream_forms (list_trees streams.now))) }
{
    if streams.is_empty() {
        return Ok(());
    }
    let mut rest = word(alloc, "else")?;
    put_streams(alloc, streams, &mut rest)?;
    put(forms, list(rest))?;
    Ok(())
}

fn server_form(alloc: Global, host: &Text, port: u16) -> Result<Form, Memory>
    ensures { IfOk result (λ form. bare_form form ≡ server_form_of host.now port) }
{
    let key = keyword(alloc, "host")?;
    let mut entries = pair(alloc, key, text(alloc, host)?)?;
    put(&mut entries, keyword(alloc, "port")?)?;
    put(&mut entries, number(i64::from(port)))?;
    Ok(list(word_with(alloc, "tcp-server", map(entries))?))
}

fn keep_key(alloc: Global, key: &KeepKey) -> Result<Form, Memory>
    ensures { IfOk result (λ form. bare_form form ≡ keep_form key.now) }
{
    match key {
        KeepKey::Field(named) => field(alloc, named),
        KeepKey::Tags => keyword(alloc, "tags"),
    }
}

/// The vector of the keys to keep.
#[tactic(auto, using(crate::proofs::CanonicalLaws::keys_more, crate::proofs::CanonicalLaws::keys_all))]
fn keys_form(alloc: Global, keys: &[KeepKey]) -> Result<Form, Memory>
    ensures { IfOk result (λ form. bare_form form ≡ vector_form (each_of keep_form keys.now)) }
{
    let mut forms = Vec::new(alloc);
    for key in keys {
        put(&mut forms, keep_key(alloc, key)?)?;
    }
    Ok(vector(forms))
}

fn expiry_form(alloc: Global, expiry: &Expiry) -> Result<Form, Memory>
    ensures { IfOk result (λ form. bare_form form ≡ expiry_form_of expiry.now) }
{
    let key = keyword(alloc, "keep-keys")?;
    let entry = pair(alloc, key, keys_form(alloc, expiry.keep.as_slice())?)?;
    let interval = number(i64::from(expiry.interval));
    Ok(list(word_with_two(alloc, "periodically-expire", interval, map(entry))?))
}

fn put_expiry(alloc: Global, expiry: &Option<Expiry>, forms: &mut Forms) -> Result<(), Memory>
    ensures { OnOk result (bare_forms forms.new.items ≡ bare_forms forms.old.items
        ++ expiry_forms expiry.now) }
{
    if let Some(expiry) = expiry {
        let form = expiry_form(alloc, expiry)?;
        put(forms, form)?;
    }
    Ok(())
}

fn streams_form(alloc: Global, streams: &[Stream]) -> Result<Form, Memory>
    ensures { IfOk result (λ form. bare_form form ≡ streams_form_of (list_trees streams.now)) }
{
    let mut forms = word(alloc, "streams")?;
    put_streams(alloc, streams, &mut forms)?;
    Ok(list(forms))
}

/// The forms of the server, of the expiry where it is set, and of the streams.
pub(crate) fn config_forms(alloc: Global, config: &Config) -> Result<Forms, Memory>
    ensures { IfOk result (λ forms. bare_forms forms.items ≡ forms_of_config config.now) }
{
    let mut forms = Vec::new(alloc);
    put(&mut forms, server_form(alloc, &config.host, config.port)?)?;
    put_expiry(alloc, &config.expiry, &mut forms)?;
    put(
        &mut forms,
        streams_form(alloc, &config.plan.plan().streams)?,
    )?;
    Ok(forms)
}
