//! The forms of a whole configuration.

ghost use Rattle.std.specs.Prelude.{◌≡◌, [], OnOk, Ok, false};
ghost use Rattle.sexp_read.specs.Tree.{form_tree, form_trees};
ghost use Rattle.config_terms.specs.Steps.{GivesAs};
ghost use Rattle.config_terms.specs.Words.{top_word as top_word_of};
ghost use Rattle.sexp_config.specs.Tops.{fresh_draft, with_server, with_expiry, with_streams, top_by, let_by, top_at as top_from, tops_in as steps_of, run as run_of};
ghost use Rattle.sexp_config.specs.Drafts.{draft_in};

use crate::draft::Draft;
use crate::expiry::expiry_in;
use crate::names::names_at;
use crate::server::server_in;
use config_streams::{Below, tops_onto};
use config_terms::{
    Binding, ConfigFault, ConfigWhy, TopWord, View, argument, first, later, no_form, refused,
    top_word, view_of,
};
use ev_types::Text;
use sexp_read::Form;
use std::alloc::Global;

impl Draft {
    pub(crate) fn fresh(alloc: Global) -> Draft
        ensures { draft_in result ≡ fresh_draft }
    {
        Draft {
            server: None,
            expiry: None,
            below: Below::fresh(alloc),
        }
    }
}

fn tcp_server(
    alloc: Global,
    env: &[Binding],
    start: usize,
    forms: &[Form],
    draft: Draft,
) -> Result<Draft, ConfigFault>
    ensures { GivesAs draft_in result (with_server env.now start (form_trees forms.now)
        (draft_in draft)) }
{
    if draft.server.is_some() {
        return Err(refused(start, ConfigWhy::Twice));
    }
    let server = server_in(alloc, env, forms)?;
    Ok(Draft {
        server: Some(server),
        expiry: draft.expiry,
        below: draft.below,
    })
}

fn periodically_expire(
    alloc: Global,
    env: &[Binding],
    start: usize,
    forms: &[Form],
    draft: Draft,
) -> Result<Draft, ConfigFault>
    ensures { GivesAs draft_in result (with_expiry env.now start (form_trees forms.now)
        (draft_in draft)) }
{
    if draft.expiry.is_some() {
        return Err(refused(start, ConfigWhy::Twice));
    }
    let expiry = expiry_in(alloc, env, forms)?;
    Ok(Draft {
        server: draft.server,
        expiry: Some(expiry),
        below: draft.below,
    })
}

fn more_streams(
    alloc: Global,
    env: &[Binding],
    forms: &[Form],
    draft: Draft,
) -> Result<Draft, ConfigFault>
    ensures { GivesAs draft_in result
        (with_streams env.now (form_trees forms.now) (draft_in draft)) }
{
    let below = tops_onto(alloc, env, forms, draft.below)?;
    Ok(Draft {
        server: draft.server,
        expiry: draft.expiry,
        below,
    })
}

/// The draft with what the form says.
#[cycle(tops)]
fn top_at(
    alloc: Global,
    env: &mut Vec<Binding>,
    form: &Form,
    draft: Draft,
) -> Result<Draft, ConfigFault>
    ensures gives { GivesAs draft_in result (top_from (form_tree form.now) env.old.items
        (draft_in draft)) }
    ensures same { OnOk result (env.new.items ≡ env.old.items) }
{
    match view_of(form) {
        View::Symbol(name) => Err(no_form(env, name, form.start)),
        View::Call(name, forms) => call_top(alloc, env, name, form.start, forms, draft),
        View::Lookup(_, _) => Err(refused(form.start, ConfigWhy::Form)),
        View::Other => Err(refused(form.start, ConfigWhy::Form)),
    }
}

/// Adds to the draft what a list says. The first form of the list is the symbol `name`, and `forms` are the rest.
#[cycle(tops)]
#[tactic(auto, unfolding(crate::specs::Tops::top_by))]
fn call_top(
    alloc: Global,
    env: &mut Vec<Binding>,
    name: &Text,
    start: usize,
    forms: &[Form],
    draft: Draft,
) -> Result<Draft, ConfigFault>
    ensures gives { GivesAs draft_in result (top_by (top_word_of name.now) env.old.items start
        (form_trees forms.now) (steps_of (form_trees forms.now)) (draft_in draft)) }
    ensures same { OnOk result (env.new.items ≡ env.old.items) }
{
    match top_word(name) {
        Some(TopWord::TcpServer) => tcp_server(alloc, env, start, forms, draft),
        Some(TopWord::PeriodicallyExpire) => periodically_expire(alloc, env, start, forms, draft),
        Some(TopWord::Streams) => more_streams(alloc, env, forms, draft),
        Some(TopWord::Let) => let_in(alloc, env, start, forms, draft),
        None => Err(refused(start, ConfigWhy::Form)),
    }
}

/// The draft with what the forms say after a vector of names, where these are bound.
#[cycle(tops)]
fn let_in(
    alloc: Global,
    env: &mut Vec<Binding>,
    start: usize,
    forms: &[Form],
    draft: Draft,
) -> Result<Draft, ConfigFault>
    ensures gives { GivesAs draft_in result (let_by env.old.items start (form_trees forms.now)
        (steps_of (form_trees forms.now)) (draft_in draft)) }
    ensures same { OnOk result (env.new.items ≡ env.old.items) }
{
    let names = argument(start, 0, forms)?;
    let count = env.len();
    names_at(alloc, env, names)?;
    let result = run(alloc, env, later(forms, 1), draft);
    env.truncate(count);
    result
}

/// The draft with what the forms say, one after the other.
#[cycle(tops)]
#[tactic(auto, unfolding(crate::specs::Tops::run, crate::specs::Tops::tops_in))]
pub(crate) fn run(
    alloc: Global,
    env: &mut Vec<Binding>,
    forms: &[Form],
    before: Draft,
) -> Result<Draft, ConfigFault>
    ensures gives { GivesAs draft_in result (run_of env.old.items (draft_in before)
        (steps_of (form_trees forms.now))) }
    ensures same { OnOk result (env.new.items ≡ env.old.items) }
{
    let mut draft = before;
    let mut left = forms;
    'forms: while let Some((form, rest)) = first(left) {
        draft = top_at(alloc, env, form, draft)?;
        left = rest;
    }
    Ok(draft)
}
