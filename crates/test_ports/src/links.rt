use crate::sockets::listen_on;
use ev_types::{Blob, Memory};
use ports::{
    FaultLinks, Links, ListenAnswer, PIECE_LIMIT, ScriptLinks, Turn, Wants, What, feed_links,
};
use std::alloc::Global;

/// Whether the next turn is this one, at second 0.
fn is_next<L: Links>(
    alloc: Global,
    links: &mut L,
    wants: &Wants,
    buf: &mut [u8],
    what: What,
) -> bool {
    buf.len() == PIECE_LIMIT && links.next(alloc, wants, buf) == Turn { secs: 0, what }
}

/// Whether the next turns are these, each at second 0.
fn are_next<L: Links>(
    alloc: Global,
    links: &mut L,
    wants: &Wants,
    buf: &mut [u8],
    wanted: &[What],
) -> bool {
    for what in wanted {
        if !is_next(alloc, links, wants, buf, *what) {
            return false;
        }
    }
    true
}

/// Whether links that wait for nothing have these turns next.
fn have_turns<L: Links>(alloc: Global, links: &mut L, wanted: &[What]) -> bool {
    match vec![in alloc; 0; 65_536] {
        Ok(mut buf) => {
            are_next(
                alloc,
                links,
                &Wants::fresh(alloc),
                buf.as_mut_slice(),
                wanted,
            )
        }
        Err(_) => false,
    }
}

/// Links that feed this many bytes.
fn feeding(alloc: Global, count: usize) -> Result<ScriptLinks, Memory> {
    let bytes = vec![in alloc; 0; count]?;
    feed_links(alloc, Blob::from_vec(bytes))
}

/// Whether this many bytes are fed in these turns.
fn is_fed(alloc: Global, count: usize, wanted: &[What]) -> bool {
    match feeding(alloc, count) {
        Ok(mut links) => have_turns(alloc, &mut links, wanted),
        Err(Memory) => false,
    }
}

const TWO_PIECES: &[What] = &[
    What::Opened { link: 0 },
    What::Read {
        link: 0,
        count: 65_536,
    },
    What::Read { link: 0, count: 1 },
    What::Ended { link: 0 },
    What::Stopped,
    What::Stopped,
];

const NO_PIECE: &[What] = &[
    What::Opened { link: 0 },
    What::Ended { link: 0 },
    What::Stopped,
];

#[test]
fn a_file_is_fed_in_pieces(rt: HostRuntime) {
    assert!(rt; is_fed(rt.alloc(), 65_537, TWO_PIECES));
    assert!(rt; is_fed(rt.alloc(), 0, NO_PIECE));
}

/// Links that feed nothing, of whose calls the first and the third fail.
fn failing(alloc: Global) -> Result<FaultLinks, Memory> {
    let numbers = vec![in alloc; 0, 2]?;
    Ok(FaultLinks::fresh(feeding(alloc, 0)?, numbers))
}

const ONE_FAILS: &[What] = &[
    What::Opened { link: 0 },
    What::Failed,
    What::Ended { link: 0 },
];

/// Whether the chosen calls fail.
fn fail(alloc: Global, links: &mut FaultLinks) -> bool {
    let refused = listen_on(alloc, links, "h:1") == ListenAnswer::Failed;
    refused && have_turns(alloc, links, ONE_FAILS) && links.faults == 2
}

/// Whether two calls of links fail that were chosen by their numbers.
fn are_failing(alloc: Global) -> bool {
    match failing(alloc) {
        Ok(mut links) => fail(alloc, &mut links),
        Err(Memory) => false,
    }
}

#[test]
fn chosen_calls_of_links_fail(rt: HostRuntime) {
    assert!(rt; are_failing(rt.alloc()));
}
