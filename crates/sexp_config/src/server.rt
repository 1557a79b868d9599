//! Where a server listens.

ghost use Rattle.std.specs.Prelude.{◌≡◌, Ok};
ghost use Rattle.sexp_read.specs.Tree.{form_tree, form_trees};
ghost use Rattle.config_terms.specs.Steps.{Gives, GivesAs, nth as nth_of};
ghost use Rattle.sexp_config.specs.Tops.{port_at as port_from, default_server as default_server_of, or_default, server_by as server_by_form, server_of as server_from, no_listens, listen_key_at as listen_key_from, with_entry as entry_read, listens_from as listens_in, server_at as server_read, server_in as server_of_forms};
ghost use Rattle.sexp_config.specs.Drafts.{server_made, listens_made};

use config_terms::{
    Binding, ConfigFault, ConfigWhy, at_most, first, is, keyword_at, map_at, nth, ranged_at,
    refused, text_at,
};
use ev_types::Text;
use sexp_read::Form;
use std::alloc::Global;

/// Where a server listens.
#[derive(Drop)]
pub(crate) struct Server {
    pub(crate) host: Text,
    pub(crate) port: u16,
}

/// What a map says of where a server listens.
#[derive(Drop)]
pub(crate) struct Listens {
    host: Option<Text>,
    port: Option<u16>,
}

/// The port where none is given.
const DEFAULT_PORT: u16 = 5555;

/// The greatest port. The least is 0.
const MAX_PORT: u32 = 65_535;

fn default_host(alloc: Global) -> Result<Text, ConfigFault>
    ensures { Gives result (Ok default_server_of.host) }
{
    Ok(Text::from_str(alloc, "127.0.0.1")?)
}

pub(crate) fn default_server(alloc: Global) -> Result<Server, ConfigFault>
    ensures { GivesAs server_made result (Ok default_server_of) }
{
    let host = default_host(alloc)?;
    Ok(Server {
        host,
        port: DEFAULT_PORT,
    })
}

fn host_of(alloc: Global, host: Option<Text>) -> Result<Text, ConfigFault>
    ensures { Gives result (Ok (or_default default_server_of.host host)) }
{
    match host {
        Some(host) => Ok(host),
        None => default_host(alloc),
    }
}

fn port_of(port: Option<u16>) -> u16
    ensures { result ≡ or_default default_server_of.port port }
{
    match port {
        Some(port) => port,
        None => DEFAULT_PORT,
    }
}

fn server_of(alloc: Global, listens: Listens) -> Result<Server, ConfigFault>
    ensures { GivesAs server_made result (Ok (server_from (listens_made listens))) }
{
    let port = port_of(listens.port);
    let host = host_of(alloc, listens.host)?;
    Ok(Server { host, port })
}

/// Whether the key is that of the host; else it is that of the port. It is refused where it is neither, or there
/// already.
#[tactic(auto, using(config_terms::proofs::FormLaws::start_of_form), unfolding(crate::specs::Tops::listen_key_at))]
fn listen_key_at(env: &[Binding], listens: &Listens, key: &Form) -> Result<bool, ConfigFault>
    ensures { Gives result
        (listen_key_from env.now (listens_made listens.now) (form_tree key.now)) }
{
    let name = keyword_at(env, key)?;
    if is(name.as_bytes(), b"host") {
        if listens.host.is_some() {
            return Err(refused(key.start, ConfigWhy::Twice));
        }
        return Ok(true);
    }
    if !is(name.as_bytes(), b"port") {
        return Err(refused(key.start, ConfigWhy::Arguments));
    }
    if listens.port.is_some() {
        return Err(refused(key.start, ConfigWhy::Twice));
    }
    Ok(false)
}

#[tactic(auto, unfolding(crate::specs::Tops::with_entry))]
fn with_entry(
    alloc: Global,
    env: &[Binding],
    listens: Listens,
    is_host: bool,
    form: &Form,
) -> Result<Listens, ConfigFault>
    ensures { GivesAs listens_made result (entry_read env.now (listens_made listens) is_host
        (form_tree form.now)) }
{
    if is_host {
        let host = text_at(alloc, env, form)?;
        Ok(Listens {
            host: Some(host),
            port: listens.port,
        })
    } else {
        let port = port_at(env, form)?;
        Ok(Listens {
            host: listens.host,
            port: Some(port),
        })
    }
}

fn port_at(env: &[Binding], form: &Form) -> Result<u16, ConfigFault>
    ensures { Gives result (port_from env.now (form_tree form.now)) }
{
    let port = ranged_at(env, form, 0, MAX_PORT)?;
    Ok(port as u16)
}

/// What the map says that starts at `place`.
#[tactic(auto, unfolding(crate::specs::Tops::listens_from))]
fn listens_from(
    alloc: Global,
    place: usize,
    env: &[Binding],
    entries: &[Form],
) -> Result<Listens, ConfigFault>
    ensures { GivesAs listens_made result (listens_in place env.now no_listens
        (form_trees entries.now)) }
{
    let mut listens = Listens {
        host: None,
        port: None,
    };
    let mut left = entries;
    'entries: while let Some((key, rest)) = first(left) {
        let is_host = listen_key_at(env, &listens, key)?;
        let Some((form, later)) = first(rest) else {
            return Err(refused(place, ConfigWhy::Arguments));
        };
        listens = with_entry(alloc, env, listens, is_host, form)?;
        left = later;
    }
    Ok(listens)
}

#[tactic(auto, using(config_terms::proofs::FormLaws::start_of_form))]
fn server_at(alloc: Global, env: &[Binding], form: &Form) -> Result<Server, ConfigFault>
    ensures { GivesAs server_made result (server_read env.now (form_tree form.now)) }
{
    let entries = map_at(env, form)?;
    let listens = listens_from(alloc, form.start, env, entries)?;
    server_of(alloc, listens)
}

fn server_by(alloc: Global, env: &[Binding], forms: &[Form]) -> Result<Server, ConfigFault>
    ensures { GivesAs server_made result
        (server_by_form env.now (nth_of 0 (form_trees forms.now))) }
{
    match nth(forms, 0) {
        None => default_server(alloc),
        Some(form) => server_at(alloc, env, form),
    }
}

/// Where the server listens by the arguments.
#[tactic(auto, unfolding(crate::specs::Tops::server_in))]
pub(crate) fn server_in(
    alloc: Global,
    env: &[Binding],
    forms: &[Form],
) -> Result<Server, ConfigFault>
    ensures { GivesAs server_made result (server_of_forms env.now (form_trees forms.now)) }
{
    let server = server_by(alloc, env, forms)?;
    at_most(1, forms)?;
    Ok(server)
}
