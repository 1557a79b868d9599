//! The request of a query.

ghost use Rattle.std.specs.Prelude.{◌≡◌, ◌≤◌, IfOk, length};
ghost use Rattle.command_client.specs.Queries.{asking, query_frame};
ghost use Rattle.query_lang.specs.declared.read.TheConstants.{MAX_BYTES};
ghost use Rattle.riemann_msg.specs.Spelling.{spelling};

use ev_types::{Blob, Events, Memory, Text};
use riemann_client::put_frame;
use riemann_msg::{Msg, QueryPart, write_msg};
use std::alloc::Global;

/// The frame of a message that asks the query.
#[tactic(auto, using(crate::proofs::QueryLaws::query_within))]
pub(crate) fn query_frame(alloc: Global, query: &Text) -> Result<Blob, Memory>
    requires { length query.now ≤ MAX_BYTES }
    ensures { IfOk result (λ frames. frames ≡ query_frame query.now) }
{
    let body = query_body(alloc, query)?;
    let mut frames = Blob::fresh(alloc);
    put_frame(alloc, body.as_slice(), &mut frames)?;
    Ok(frames)
}

fn query_body(alloc: Global, query: &Text) -> Result<Blob, Memory>
    ensures { IfOk result (λ body. body ≡ spelling (asking query.now)) }
{
    let string = query.copy(alloc)?;
    let msg = Msg {
        ok: None,
        error: None,
        query: Some(QueryPart {
            string: Some(string),
        }),
        events: Events::fresh(alloc),
    };
    let mut body = Blob::fresh(alloc);
    write_msg(alloc, &msg, &mut body)?;
    Ok(body)
}
