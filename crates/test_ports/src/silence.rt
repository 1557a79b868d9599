use crate::sockets::{all_of, listen, next_turn};
use ev_types::Memory;
use mio_links::{MioLinks, Readings, Refusal, refusal_of};
use ports::{Links, Wants, What};
use std::alloc::Global;
use std::cell::Cell;
use std::io;
use std::io::Write;
use std::net::{Net, SocketAddr, TcpStream};
use std::test::Fail;
use std::time::{Clock, CpuClock, Duration};

/// The system's sockets, beside clocks that are set by hand.
#[derive(Drop)]
pub(crate) struct SetClock<'a, R: Net> {
    pub rt: &'a R,
    pub secs: Cell<u64>,
    /// For how many milliseconds the thread has used a processor.
    pub used: Cell<u64>,
}

impl<'a, R: Net> CpuClock for SetClock<'a, R> {
    fn thread_cpu_time(&self) -> io::Result<Duration> {
        Ok(Duration::from_millis(self.used.get()))
    }

    fn process_cpu_time(&self) -> io::Result<Duration> {
        self.thread_cpu_time()
    }
}

impl<'a, R: Net> Clock for SetClock<'a, R> {
    fn monotonic(&self) -> io::Result<Duration> {
        self.since_1970()
    }

    fn since_1970(&self) -> io::Result<Duration> {
        Ok(Duration::from_secs(self.secs.get()))
    }
}

impl<'a, R: Net> Net for SetClock<'a, R> {
    type Stream = R::Stream;

    type Listener = R::Listener;

    fn bind(&self, addr: SocketAddr) -> io::Result<R::Listener> {
        self.rt.bind(addr)
    }

    fn connect(&self, addr: SocketAddr) -> io::Result<R::Stream> {
        self.rt.connect(addr)
    }
}

/// The server waits for all there is on `count` links from 0 on, and not on the one that was left out.
fn all_but(alloc: Global, count: u64, left_out: u64) -> Result<Wants, Memory> {
    let mut wants = Wants::fresh(alloc);
    for link in 0..count {
        if link != left_out {
            wants.push(alloc, all_of(link))?;
        }
    }
    Ok(wants)
}

/// The next turn of links that wait for all there is on `count` links from 0 on, and not on the one that was left out.
fn turn_of<L: Links>(
    alloc: Global,
    links: &mut L,
    buf: &mut [u8],
    count: u64,
    left_out: u64,
) -> What {
    match all_but(alloc, count, left_out) {
        Ok(wants) => next_turn(alloc, links, &wants, buf),
        Err(Memory) => What::Memory,
    }
}

/// Adds a client that opens this link, after all those of smaller numbers. Answers whether it did.
fn add_client<R: Net + Clock + CpuClock>(
    rt: &R,
    alloc: Global,
    links: &mut MioLinks<'_, R>,
    address: &str,
    buf: &mut [u8],
    link: u64,
    clients: &mut Vec<R::Stream>,
) -> bool {
    match TcpStream::connect(rt, address) {
        Ok(client) => {
            clients.push(client).is_ok()
                && turn_of(alloc, links, buf, link, link) == (What::Opened { link })
        }
        Err(_) => false,
    }
}

/// Connects 256 clients. Answers whether each opens a link.
fn fill<R: Net + Clock + CpuClock>(
    rt: &R,
    alloc: Global,
    links: &mut MioLinks<'_, R>,
    address: &str,
    buf: &mut [u8],
    clients: &mut Vec<R::Stream>,
) -> bool {
    for link in 0..256u64 {
        if !add_client(rt, alloc, links, address, buf, link, clients) {
            return false;
        }
    }
    true
}

/// Connects one more client, whose link is closed again. Answers whether it opened one.
fn open_one_more<R: Net + Clock + CpuClock>(
    rt: &R,
    alloc: Global,
    links: &mut MioLinks<'_, R>,
    address: &str,
    buf: &mut [u8],
) -> bool {
    let client = TcpStream::connect(rt, address);
    let opened = turn_of(alloc, links, buf, 256, 256) == (What::Opened { link: 256 });
    links.close(256);
    client.is_ok() && opened
}

/// The first client sends a byte. Answers whether it can.
fn send_byte<S: Write>(clients: &mut [S]) -> bool {
    match clients.first_mut() {
        Some(first) => first.write_all(b"x").is_ok(),
        None => false,
    }
}

/// Whether the client of link 0 is heard, after one more link was opened and closed.
fn is_first_heard<R: Net + Clock + CpuClock, S: Write>(
    rt: &R,
    alloc: Global,
    links: &mut MioLinks<'_, R>,
    address: &str,
    buf: &mut [u8],
    clients: &mut [S],
) -> bool {
    open_one_more(rt, alloc, links, address, buf)
        && send_byte(clients)
        && turn_of(alloc, links, buf, 256, 256) == (What::Read { link: 0, count: 1 })
}

/// Whether link 1 is given up for a client that waits, which then opens the next link.
fn is_room_made<R: Net + Clock + CpuClock>(
    alloc: Global,
    links: &mut MioLinks<'_, R>,
    buf: &mut [u8],
) -> bool {
    let broken = turn_of(alloc, links, buf, 256, 256) == (What::Broken { link: 1 });
    links.close(1);
    broken && turn_of(alloc, links, buf, 256, 1) == (What::Opened { link: 257 })
}

/// Whether link 1 is given up for one more client.
fn is_second_given_up<R: Net + Clock + CpuClock>(
    rt: &R,
    alloc: Global,
    links: &mut MioLinks<'_, R>,
    address: &str,
    buf: &mut [u8],
) -> bool {
    let late = TcpStream::connect(rt, address);
    late.is_ok() && is_room_made(alloc, links, buf)
}

/// Whether link 1 is given up after ten minutes, and no link a second before, where the client of link 0 was heard.
fn is_given_up_late<'b, R: Net, S: Write>(
    clock: &SetClock<'b, R>,
    alloc: Global,
    links: &mut MioLinks<'_, SetClock<'b, R>>,
    address: &str,
    buf: &mut [u8],
    clients: &mut [S],
) -> bool {
    clock.secs.set(599);
    let heard = is_first_heard(clock, alloc, links, address, buf, clients);
    clock.secs.set(600);
    heard && is_second_given_up(clock, alloc, links, address, buf)
}

/// Whether one of 256 silent links is given up in time.
fn is_one_given_up<'b, R: Net>(
    clock: &SetClock<'b, R>,
    alloc: Global,
    links: &mut MioLinks<'_, SetClock<'b, R>>,
    address: &str,
    buf: &mut [u8],
) -> bool {
    let mut clients = Vec::new(alloc);
    fill(clock, alloc, links, address, buf, &mut clients)
        && is_given_up_late(clock, alloc, links, address, buf, clients.as_mut_slice())
}

/// Whether a link is given up in time, of links that listen on the address.
fn is_given_up_at<'b, R: Net>(
    clock: &SetClock<'b, R>,
    alloc: Global,
    links: &mut MioLinks<'_, SetClock<'b, R>>,
    address: &str,
) -> bool {
    match vec![in alloc; 0; 65_536] {
        Ok(mut buf) => is_one_given_up(clock, alloc, links, address, buf.as_mut_slice()),
        Err(_) => false,
    }
}

/// Whether a link is given up for its silence after ten minutes, and not a second before.
fn is_given_up<'b, R: Net>(
    clock: &SetClock<'b, R>,
    alloc: Global,
    links: &mut MioLinks<'_, SetClock<'b, R>>,
) -> bool {
    match listen(alloc, links) {
        Some(address) => is_given_up_at(clock, alloc, links, address.as_str()),
        None => false,
    }
}

#[test]
fn the_link_that_was_silent_longest_makes_room(rt: HostRuntime) -> Result<(), Fail> {
    let clock = SetClock {
        rt: &rt,
        secs: Cell::new(0),
        used: Cell::new(0),
    };
    let mut links = MioLinks::fresh(&clock, rt.alloc())?;
    assert!(rt; is_given_up(&clock, rt.alloc(), &mut links));
    Ok(())
}

/// Whether the system's numbers say so.
fn are_refused(rows: &[(u32, Refusal)]) -> bool {
    for row in rows {
        if refusal_of(row.0) != row.1 {
            return false;
        }
    }
    true
}

const REFUSALS: &[(u32, Refusal)] = &[
    (1, Refusal::Lack),
    (4, Refusal::OneConnection),
    (9, Refusal::Listener),
    (11, Refusal::NoneWaits),
    (12, Refusal::Lack),
    (22, Refusal::Listener),
    (23, Refusal::Lack),
    (24, Refusal::Lack),
    (71, Refusal::OneConnection),
    (103, Refusal::OneConnection),
    (105, Refusal::Lack),
    (113, Refusal::OneConnection),
    (114, Refusal::Listener),
];

#[test]
fn only_a_failure_of_the_listener_ends_the_server(rt: HostRuntime) {
    assert!(rt; are_refused(REFUSALS));
}

/// Whether the clock is far ahead after each of these readings, as given.
fn are_ahead(first: u64, rows: &[(u64, bool)]) -> bool {
    let mut readings = Readings::first(first);
    for row in rows {
        readings.take(row.0);
        if readings.are_ahead() != row.1 {
            return false;
        }
    }
    true
}

const READINGS: &[(u64, bool)] = &[
    (3_600, false),
    (10_800, false),
    (10_801, false),
    (18_002, true),
    (18_002, false),
    (5, false),
    (u64::MAX, true),
];

#[test]
fn a_turn_waits_unless_the_clock_is_over_an_hour_ahead(rt: HostRuntime) {
    assert!(rt; are_ahead(0, READINGS));
}
