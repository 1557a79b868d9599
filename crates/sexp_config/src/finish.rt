//! The configuration that was read, and the check of its streams.

ghost use Rattle.std.specs.Prelude.{◌≡◌, ◌≤◌, IfOk, Ok};
ghost use Rattle.std.specs.Option.{option_map};
ghost use Rattle.sexp_read.specs.Tree.{form_trees};
ghost use Rattle.sexp_read.specs.Grammar.{depth, deepest};
ghost use Rattle.sexp_config.specs.Config.{fault_by, config_of as config_read, checked as checked_plan, finished};
ghost use Rattle.config_terms.specs.Steps.{Gives, GivesAs};
ghost use Rattle.config_streams.specs.Sources.{place_along as place_by, nth_source, with_sources};
ghost use Rattle.sexp_config.specs.Tops.{default_server as default_server_of, or_default};
ghost use Rattle.sexp_config.specs.WellBuilt.{IsWellBuilt, IsLeft};
ghost use Rattle.config_streams.specs.Made.{located_in, source_list, source_tree};
ghost use Rattle.sexp_config.specs.Drafts.{draft_in, server_made};
ghost use Rattle.ev_types.specs.Interval.{IsInterval};

use crate::Config;
use crate::draft::Draft;
use crate::server::{Server, default_server};
use crate::tops::run;
use config_streams::{Located, Source};
use config_terms::{ConfigFault, ConfigWhy, refused};
use sexp_read::Form;
use std::alloc::Global;
use stream_plan::{CheckedPlan, Plan, PlanFault, PlanWhy, check_kinds};

/// The place of the form of the stream to which the path leads.
fn place_along(sources: &[Source], path: &[usize]) -> usize
    ensures { result ≡ place_by 0 (source_list sources.now) path.now }
{
    let mut place = 0;
    let mut children = sources;
    let mut otherwise: &[Source] = &[];
    'path: for number in path {
        let Some(source) = follow(children, otherwise, *number) else {
            return place;
        };
        place = source.place;
        children = &source.children;
        otherwise = &source.otherwise;
    }
    place
}

/// The source of a number: the children's come first.
fn follow<'a>(children: &'a [Source], otherwise: &'a [Source], number: usize) -> Option<&'a Source>
    ensures { option_map (λ found. source_tree found.now) result ≡ nth_source number
        (with_sources (source_list children.now) (source_list otherwise.now)) }
{
    if number < children.len() {
        return Some(&children[number]);
    }
    let later = number - children.len();
    if later < otherwise.len() {
        return Some(&otherwise[later]);
    }
    None
}

/// The plan of the streams, where it has no fault.
fn checked(alloc: Global, located: Located) -> Result<CheckedPlan, ConfigFault>
    requires { IsWellBuilt (located_in located).streams }
    ensures { Gives result (checked_plan (located_in located)) }
{
    let places = located.places;
    match check_kinds(
        alloc,
        Plan {
            streams: located.streams,
        },
    ) {
        Ok(plan) => Ok(plan),
        Err(PlanFault::Refused { path, why }) => {
            Err(fault_of(place_along(&places, path.as_slice()), why))
        }
        Err(PlanFault::Memory) => Err(ConfigFault::Memory),
    }
}

/// The refusal of the stream at the place. Of the five causes only Many and Kind can still come: only `where` gets
/// other streams, what takes no streams has none, numbers are in their ranges, no `by` with `idle` is below another
/// `by`, and at most 64 brackets are open at once.
fn fault_of(place: usize, why: PlanWhy) -> ConfigFault
    requires { IsLeft why }
    ensures { result ≡ fault_by why place }
{
    match why {
        PlanWhy::Many => refused(place, ConfigWhy::Many),
        PlanWhy::Kind => refused(place, ConfigWhy::Kind),
        PlanWhy::Deep | PlanWhy::Children | PlanWhy::Range => unreachable!(),
    }
}

fn server_of(alloc: Global, server: Option<Server>) -> Result<Server, ConfigFault>
    ensures { GivesAs server_made result (Ok
        (or_default default_server_of (option_map server_made server))) }
{
    match server {
        Some(server) => Ok(server),
        None => default_server(alloc),
    }
}

fn finish(alloc: Global, draft: Draft) -> Result<Config, ConfigFault>
    requires { IsWellBuilt (draft_in draft).below.children.streams }
    ensures gives { Gives result (finished (draft_in draft)) }
    ensures interval { IfOk result (λ config. IsInterval config.expiry) }
{
    let server = server_of(alloc, draft.server)?;
    let below = draft.below;
    let plan = checked(alloc, below.children)?;
    Ok(Config {
        host: server.host,
        port: server.port,
        expiry: draft.expiry,
        plan,
    })
}

/// The configuration that the forms represent.
#[tactic(auto, unfolding(crate::specs::Config::config_of))]
pub(crate) fn config_of(alloc: Global, forms: &[Form]) -> Result<Config, ConfigFault>
    requires { depth (form_trees forms.now) ≤ deepest }
    ensures gives { Gives result (config_read (form_trees forms.now)) }
    ensures interval { IfOk result (λ config. IsInterval config.expiry) }
{
    let mut env = Vec::new(alloc);
    let draft = run(alloc, &mut env, forms, Draft::fresh(alloc))?;
    finish(alloc, draft)
}
