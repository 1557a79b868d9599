use ev_types::{Memory, Text};
use mio_links::MioLinks;
use ports::{Links, ListenAnswer, PIECE_LIMIT, SendAnswer, Want, Wants, What};
use std::alloc::Global;
use std::io;
use std::io::{Read, Write};
use std::net::{Net, Shutdown, TcpStream};
use std::test::Fail;
use std::time::{Clock, CpuClock};

/// The server waits for all there is on the link of this number.
pub(crate) fn all_of(link: u64) -> Want {
    Want {
        link,
        read: true,
        room: true,
    }
}

/// The server waits for all there is on links 0 and 1.
pub(crate) fn both(alloc: Global) -> Result<Wants, Memory> {
    Ok(Wants::from_vec(vec![in alloc; all_of(0), all_of(1)]?))
}

/// What the links answer when they are to listen on the address.
pub(crate) fn listen_on<L: Links>(alloc: Global, links: &mut L, address: &str) -> ListenAnswer {
    match Text::from_str(alloc, address) {
        Ok(address) => links.listen(alloc, &address),
        Err(Memory) => ListenAnswer::Memory,
    }
}

/// Whether the links are ready when they are to listen on the address.
pub(crate) fn is_ready<L: Links>(alloc: Global, links: &mut L, address: &str) -> bool {
    matches!(listen_on(alloc, links, address), ListenAnswer::Ready { .. })
}

/// Whether the links fail to listen on the address.
fn fails_to_listen<L: Links>(alloc: Global, links: &mut L, address: &str) -> bool {
    listen_on(alloc, links, address) == ListenAnswer::Failed
}

/// Listens on the first port from 25000 on that is free, and gives its address.
pub(crate) fn listen<L: Links>(alloc: Global, links: &mut L) -> Option<String> {
    for port in 25_000u16..25_200 {
        let address = address_of(alloc, port)?;
        if is_ready(alloc, links, address.as_str()) {
            return Some(address);
        }
    }
    None
}

fn address_of(alloc: Global, port: u16) -> Option<String> {
    format!(in alloc; "127.0.0.1:{port}").ok()
}

/// Two clients that are connected to the address.
fn two_clients<R: Net>(rt: &R, address: &str) -> io::Result<(R::Stream, R::Stream)> {
    let first = TcpStream::connect(rt, address)?;
    let second = TcpStream::connect(rt, address)?;
    Ok((first, second))
}

/// Two clients that are connected to the links.
pub(crate) fn connect<R: Net + Clock + CpuClock>(
    rt: &R,
    alloc: Global,
    links: &mut MioLinks<'_, R>,
) -> Option<(R::Stream, R::Stream)> {
    let address = listen(alloc, links)?;
    two_clients(rt, address.as_str()).ok()
}

/// The next turn that is not idle, of the next fifty.
pub(crate) fn next_turn<L: Links>(
    alloc: Global,
    links: &mut L,
    wants: &Wants,
    buf: &mut [u8],
) -> What {
    if buf.len() != PIECE_LIMIT {
        return What::Failed;
    }
    for _ in 0..50 {
        let turn = links.next(alloc, wants, buf);
        if turn.what != What::Idle {
            return turn.what;
        }
    }
    What::Idle
}

/// Whether a send of this text is answered so.
pub(crate) fn is_sent<L: Links>(
    alloc: Global,
    links: &mut L,
    link: u64,
    text: &str,
    answer: SendAnswer,
) -> bool {
    !text.is_empty() && links.send(alloc, link, text.as_bytes()) == answer
}

/// Whether the next turn is that both clients are connected.
pub(crate) fn are_opened<L: Links>(
    alloc: Global,
    links: &mut L,
    wants: &Wants,
    buf: &mut [u8],
) -> bool {
    next_turn(alloc, links, wants, buf) == What::Opened { link: 0 }
        && next_turn(alloc, links, wants, buf) == What::Opened { link: 1 }
}

/// Whether a text that the client writes comes on the link.
fn is_heard<L: Links>(
    alloc: Global,
    links: &mut L,
    wants: &Wants,
    buf: &mut [u8],
    client: &mut TcpStream,
    link: u64,
    text: &str,
) -> bool {
    let count = text.len();
    client.write_all(text.as_bytes()).is_ok()
        && next_turn(alloc, links, wants, buf) == What::Read { link, count }
}

/// Whether five bytes that are sent on link 1 come to its client.
fn is_answered<L: Links>(alloc: Global, links: &mut L, client: &mut TcpStream, text: &str) -> bool {
    let mut reply = [0u8; 5];
    is_sent(alloc, links, 1, text, SendAnswer::Took { count: 5 })
        && client.read_exact(&mut reply).is_ok()
        && reply.as_slice() == text.as_bytes()
}

/// Whether link 1 ends as its client sends nothing more. Then it is closed.
fn is_ended<R: Net + Clock + CpuClock>(
    alloc: Global,
    links: &mut MioLinks<'_, R>,
    wants: &Wants,
    buf: &mut [u8],
    client: &mut TcpStream,
) -> bool {
    let ended = client.shutdown(Shutdown::Write).is_ok()
        && next_turn(alloc, links, wants, buf) == What::Ended { link: 1 };
    links.close(1);
    ended
}

/// Whether five bytes come from the client of link 1, five others go to it, and its link ends.
fn is_second_served<R: Net + Clock + CpuClock>(
    alloc: Global,
    links: &mut MioLinks<'_, R>,
    wants: &Wants,
    buf: &mut [u8],
    client: &mut TcpStream,
) -> bool {
    is_heard(alloc, links, wants, buf, client, 1, "hello")
        && is_answered(alloc, links, client, "world")
        && is_ended(alloc, links, wants, buf, client)
}

/// Whether the second client is served, and then the first one.
fn are_served<R: Net + Clock + CpuClock>(
    alloc: Global,
    links: &mut MioLinks<'_, R>,
    wants: &Wants,
    buf: &mut [u8],
    first: &mut TcpStream,
    second: &mut TcpStream,
) -> bool {
    are_opened(alloc, links, wants, buf)
        && is_second_served(alloc, links, wants, buf, second)
        && is_heard(alloc, links, wants, buf, first, 0, "x")
}

/// Whether two clients are served.
fn serves<R: Net + Clock + CpuClock>(
    alloc: Global,
    links: &mut MioLinks<'_, R>,
    first: &mut TcpStream,
    second: &mut TcpStream,
) -> Result<bool, Memory> {
    let wants = both(alloc)?;
    let mut buf = vec![in alloc; 0; 65_536]?;
    Ok(are_served(alloc, links, &wants, buf.as_mut_slice(), first, second))
}

/// Whether two clients that connect to the address of the links are served.
fn are_clients_served<R: Net<Stream = TcpStream> + Clock + CpuClock>(
    rt: &R,
    alloc: Global,
    links: &mut MioLinks<'_, R>,
    address: &str,
) -> bool {
    match two_clients(rt, address) {
        Ok((mut first, mut second)) => {
            matches!(serves(alloc, links, &mut first, &mut second), Ok(true))
        }
        Err(_) => false,
    }
}

/// Whether others that fail to listen on the address, which is in use, and on one without a port, count two faults.
fn are_two_faults<R: Net + Clock + CpuClock>(rt: &R, alloc: Global, address: &str) -> bool {
    match MioLinks::fresh(rt, alloc) {
        Ok(mut others) => {
            fails_to_listen(alloc, &mut others, address)
                && fails_to_listen(alloc, &mut others, "127.0.0.1")
                && others.faults == 2
        }
        Err(Memory) => false,
    }
}

/// Whether the links listen on a port that no others can listen on, and serve two clients there.
fn have_a_port<R: Net<Stream = TcpStream> + Clock + CpuClock>(
    rt: &R,
    alloc: Global,
    links: &mut MioLinks<'_, R>,
) -> bool {
    match listen(alloc, links) {
        Some(address) => {
            are_two_faults(rt, alloc, address.as_str())
                && are_clients_served(rt, alloc, links, address.as_str())
        }
        None => false,
    }
}

#[test]
fn links_over_sockets_are_served_on_a_port_that_is_then_in_use(
    rt: HostRuntime,
) -> Result<(), Fail> {
    let mut links = MioLinks::fresh(&rt, rt.alloc())?;
    assert!(rt; have_a_port(&rt, rt.alloc(), &mut links));
    Ok(())
}

/// Sends blocks on link 0 until it takes no more, and gives how many bytes it took.
fn fill<L: Links>(alloc: Global, links: &mut L, block: &[u8]) -> usize {
    let mut filled = 0usize;
    for _ in 0..10_000 {
        if block.is_empty() {
            return filled;
        }
        match links.send(alloc, 0, block) {
            SendAnswer::Took { count } => filled = filled.saturating_add(count),
            _ => return filled,
        }
    }
    filled
}

/// Whether this many bytes come.
fn is_drained(stream: &mut TcpStream, buf: &mut [u8], wanted: usize) -> bool {
    let mut drained = 0usize;
    for _ in 0..1_000_000 {
        if drained >= wanted {
            return drained == wanted;
        }
        drained = drained.saturating_add(stream.read(buf).unwrap_or(0));
    }
    false
}

/// Whether the other client is heard while one of link 0 reads nothing, and there is room once it reads.
fn is_heard_beside_a_full_link<L: Links>(
    alloc: Global,
    links: &mut L,
    wants: &Wants,
    buf: &mut [u8],
    full: &mut TcpStream,
    other: &mut TcpStream,
) -> bool {
    let filled = fill(alloc, links, buf);
    is_sent(alloc, links, 0, "more", SendAnswer::Later)
        && is_heard(alloc, links, wants, buf, other, 1, "x")
        && is_drained(full, buf, filled)
        && next_turn(alloc, links, wants, buf) == What::Room { link: 0 }
}

/// The first client sends two bytes more than a read takes, and the other one byte.
fn send_more_and_less(busy: &mut TcpStream, other: &mut TcpStream, block: &[u8]) -> io::Result<()> {
    busy.write_all(block)?;
    busy.write_all("yz".as_bytes())?;
    other.write_all("x".as_bytes())
}

/// Whether the other client is heard in two turns though one of link 0 sends more than a read takes.
fn is_heard_beside_a_busy_link<L: Links>(
    alloc: Global,
    links: &mut L,
    wants: &Wants,
    buf: &mut [u8],
    busy: &mut TcpStream,
    other: &mut TcpStream,
) -> bool {
    let sent = send_more_and_less(busy, other, buf).is_ok();
    let one = What::Read { link: 1, count: 1 };
    let first = next_turn(alloc, links, wants, buf);
    let second = next_turn(alloc, links, wants, buf);
    sent && (first == one || second == one)
}

/// Whether link 1 breaks in two turns as its client is gone with an unread reply.
fn is_broken<L: Links>(
    alloc: Global,
    links: &mut L,
    wants: &Wants,
    buf: &mut [u8],
    client: TcpStream,
) -> bool {
    let sent = is_sent(alloc, links, 1, "unread", SendAnswer::Took { count: 6 });
    drop(client);
    let broken = What::Broken { link: 1 };
    let first = next_turn(alloc, links, wants, buf);
    sent && (first == broken || next_turn(alloc, links, wants, buf) == broken)
}

/// Whether the other client is heard beside one of link 0 that reads nothing, and then sends more than a read takes.
fn is_heard_beside_another<L: Links>(
    alloc: Global,
    links: &mut L,
    wants: &Wants,
    buf: &mut [u8],
    busy: &mut TcpStream,
    other: &mut TcpStream,
) -> bool {
    are_opened(alloc, links, wants, buf)
        && is_heard_beside_a_full_link(alloc, links, wants, buf, busy, other)
        && is_heard_beside_a_busy_link(alloc, links, wants, buf, busy, other)
}

/// Whether the other client is heard until it is gone.
fn is_heard_to_its_end<L: Links>(
    alloc: Global,
    links: &mut L,
    wants: &Wants,
    buf: &mut [u8],
    busy: &mut TcpStream,
    mut other: TcpStream,
) -> bool {
    let heard = is_heard_beside_another(alloc, links, wants, buf, busy, &mut other);
    let broken = is_broken(alloc, links, wants, buf, other);
    heard && broken
}

/// Whether no client keeps the other waiting.
fn shares<L: Links>(
    alloc: Global,
    links: &mut L,
    busy: &mut TcpStream,
    other: TcpStream,
) -> Result<bool, Memory> {
    let wants = both(alloc)?;
    let mut buf = vec![in alloc; 0; 65_536]?;
    Ok(is_heard_to_its_end(alloc, links, &wants, buf.as_mut_slice(), busy, other))
}

/// Whether two clients that are connected to the links share them.
fn do_clients_share<R: Net<Stream = TcpStream> + Clock + CpuClock>(
    rt: &R,
    alloc: Global,
    links: &mut MioLinks<'_, R>,
) -> bool {
    match connect(rt, alloc, links) {
        Some((mut busy, other)) => matches!(shares(alloc, links, &mut busy, other), Ok(true)),
        None => false,
    }
}

#[test]
fn no_link_keeps_another_waiting(rt: HostRuntime) -> Result<(), Fail> {
    let mut links = MioLinks::fresh(&rt, rt.alloc())?;
    assert!(rt; do_clients_share(&rt, rt.alloc(), &mut links));
    Ok(())
}
