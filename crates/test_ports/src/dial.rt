use crate::sockets::{all_of, is_sent, listen, listen_on, next_turn};
use ev_types::Memory;
use mio_links::{DialLinks, MioLinks};
use ports::{Links, ListenAnswer, PIECE_LIMIT, SendAnswer, Wants, What};
use std::alloc::Global;
use std::net::Net;
use std::test::Fail;
use std::time::{Clock, CpuClock};

/// All there is on link 0 is waited for.
fn one(alloc: Global) -> Result<Wants, Memory> {
    Ok(Wants::from_vec(vec![in alloc; all_of(0)]?))
}

/// Whether five bytes that one end sends come to the other.
fn is_passed<L: Links, M: Links>(
    alloc: Global,
    from: &mut L,
    to: &mut M,
    wants: &Wants,
    buf: &mut [u8],
) -> bool {
    is_sent(alloc, from, 0, "hello", SendAnswer::Took { count: 5 })
        && next_turn(alloc, to, wants, buf) == What::Read { link: 0, count: 5 }
}

/// Whether both ends open.
fn are_open<L: Links, M: Links>(
    alloc: Global,
    client: &mut L,
    server: &mut M,
    wants: &Wants,
    buf: &mut [u8],
) -> bool {
    next_turn(alloc, client, wants, buf) == What::Opened { link: 0 }
        && next_turn(alloc, server, wants, buf) == What::Opened { link: 0 }
}

/// Whether the server's link ends as the client closes it.
fn is_closed<R: Net + Clock + CpuClock>(
    alloc: Global,
    client: &mut DialLinks<'_, R>,
    server: &mut MioLinks<'_, R>,
    wants: &Wants,
    buf: &mut [u8],
) -> bool {
    client.close(0);
    next_turn(alloc, server, wants, buf) == What::Ended { link: 0 }
}

/// Whether the next turn is not before this second.
fn is_not_before<L: Links>(
    alloc: Global,
    links: &mut L,
    wants: &Wants,
    buf: &mut [u8],
    secs: u64,
) -> bool {
    buf.len() == PIECE_LIMIT && links.next(alloc, wants, buf).secs >= secs
}

/// Whether both ends open, bytes go both ways, the server's link ends as the client closes it, and the client's clock
/// goes on from this second.
fn are_linked<R: Net + Clock + CpuClock>(
    alloc: Global,
    client: &mut DialLinks<'_, R>,
    server: &mut MioLinks<'_, R>,
    wants: &Wants,
    buf: &mut [u8],
    secs: u64,
) -> bool {
    are_open(alloc, client, server, wants, buf)
        && is_passed(alloc, client, server, wants, buf)
        && is_passed(alloc, server, client, wants, buf)
        && is_closed(alloc, client, server, wants, buf)
        && is_not_before(alloc, client, wants, buf, secs)
}

/// Whether the client, which began to connect to the server in this second, is served.
fn is_served<R: Net + Clock + CpuClock>(
    alloc: Global,
    client: &mut DialLinks<'_, R>,
    server: &mut MioLinks<'_, R>,
    secs: u64,
) -> Result<bool, Memory> {
    let wants = one(alloc)?;
    let mut buf = vec![in alloc; 0; 65_536]?;
    Ok(are_linked(alloc, client, server, &wants, buf.as_mut_slice(), secs))
}

/// Whether the client is served at the address.
fn is_served_at<R: Net + Clock + CpuClock>(
    alloc: Global,
    client: &mut DialLinks<'_, R>,
    server: &mut MioLinks<'_, R>,
    address: &str,
) -> bool {
    match listen_on(alloc, client, address) {
        ListenAnswer::Ready { secs } => {
            secs > 0 && matches!(is_served(alloc, client, server, secs), Ok(true))
        }
        _ => false,
    }
}

/// Whether the client is served at the address that the server listens on.
fn is_dialed<R: Net + Clock + CpuClock>(
    alloc: Global,
    client: &mut DialLinks<'_, R>,
    server: &mut MioLinks<'_, R>,
) -> bool {
    match listen(alloc, server) {
        Some(address) => is_served_at(alloc, client, server, address.as_str()),
        None => false,
    }
}

/// Whether a client is served by the server.
fn serves_one<R: Net + Clock + CpuClock>(
    rt: &R,
    alloc: Global,
    server: &mut MioLinks<'_, R>,
) -> bool {
    match DialLinks::fresh(rt, alloc) {
        Ok(mut client) => is_dialed(alloc, &mut client, server),
        Err(Memory) => false,
    }
}

#[test]
fn a_link_to_a_server_is_served(rt: HostRuntime) -> Result<(), Fail> {
    let mut server = MioLinks::fresh(&rt, rt.alloc())?;
    assert!(rt; serves_one(&rt, rt.alloc(), &mut server));
    Ok(())
}

/// Whether the next turn is that the links failed.
fn has_failed<L: Links>(alloc: Global, links: &mut L) -> bool {
    match vec![in alloc; 0; 65_536] {
        Ok(mut buf) => {
            next_turn(alloc, links, &Wants::fresh(alloc), buf.as_mut_slice()) == What::Failed
        }
        Err(_) => false,
    }
}

/// Whether the address can't be connected to, as the first call or the first turn after it says.
fn is_refused<L: Links>(alloc: Global, links: &mut L, address: &str) -> bool {
    match listen_on(alloc, links, address) {
        ListenAnswer::Failed => true,
        ListenAnswer::Ready { .. } => has_failed(alloc, links),
        ListenAnswer::Memory => false,
    }
}

/// Whether an address that nobody listens on, and one without a port, are two faults.
fn are_two_faults<R: Net + Clock + CpuClock>(alloc: Global, links: &mut DialLinks<'_, R>) -> bool {
    let refused = is_refused(alloc, links, "127.0.0.1:24999");
    let without_port = is_refused(alloc, links, "127.0.0.1");
    refused && without_port && links.faults == 2
}

#[test]
fn an_address_nobody_listens_on_is_a_fault(rt: HostRuntime) -> Result<(), Fail> {
    let mut links = DialLinks::fresh(&rt, rt.alloc())?;
    assert!(rt; are_two_faults(rt.alloc(), &mut links));
    Ok(())
}
