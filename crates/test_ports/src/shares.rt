use crate::silence::SetClock;
use crate::sockets::{are_opened, both, connect, next_turn};
use ev_types::Memory;
use mio_links::MioLinks;
use ports::{Wants, What};
use std::alloc::Global;
use std::cell::Cell;
use std::io::Write;
use std::net::{Net, TcpStream};
use std::test::Fail;

/// For how many milliseconds the server uses a processor after a read, how many bytes come then, and how many the next
/// read has.
const READS: &[(u64, usize, usize)] = &[
    (0, 4_096, 512),
    (21, 0, 512),
    (20, 0, 512),
    (5, 0, 512),
    (4, 0, 1_024),
    (21, 0, 512),
    (4, 0, 512),
];

/// Whether the reads of link 0 have as many bytes as these rows say.
fn have_shares<'b, R: Net<Stream = TcpStream>>(
    clock: &SetClock<'b, R>,
    alloc: Global,
    links: &mut MioLinks<'_, SetClock<'b, R>>,
    wants: &Wants,
    buf: &mut [u8],
    client: &mut TcpStream,
    block: &[u8],
) -> bool {
    for row in READS {
        clock.used.set(clock.used.get().saturating_add(row.0));
        let sent = client.write_all(&block[..row.1.min(block.len())]).is_ok();
        let count = row.2;
        if !sent || next_turn(alloc, links, wants, buf) != (What::Read { link: 0, count }) {
            return false;
        }
    }
    true
}

/// Whether link 0 comes after link 1 once its last read was dear, though it has bytes first.
fn is_dear_last<'b, R: Net<Stream = TcpStream>>(
    clock: &SetClock<'b, R>,
    alloc: Global,
    links: &mut MioLinks<'_, SetClock<'b, R>>,
    wants: &Wants,
    buf: &mut [u8],
    dear: &mut TcpStream,
    other: &mut TcpStream,
) -> bool {
    clock.used.set(clock.used.get().saturating_add(21));
    let sent = dear.write_all(b"x").is_ok() && other.write_all(b"y").is_ok();
    let first = next_turn(alloc, links, wants, buf);
    let second = next_turn(alloc, links, wants, buf);
    sent && first == (What::Read { link: 1, count: 1 })
        && second == (What::Read { link: 0, count: 1 })
}

/// Whether two clients are served by what the reads of the first one cost.
fn are_weighed<'b, R: Net<Stream = TcpStream>>(
    clock: &SetClock<'b, R>,
    alloc: Global,
    links: &mut MioLinks<'_, SetClock<'b, R>>,
    dear: &mut TcpStream,
    other: &mut TcpStream,
) -> Result<bool, Memory> {
    let wants = both(alloc)?;
    let block = vec![in alloc; 0; 4_096]?;
    let mut room = vec![in alloc; 0; 65_536]?;
    let buf = room.as_mut_slice();
    Ok(
        are_opened(alloc, links, &wants, buf)
            && have_shares(clock, alloc, links, &wants, buf, dear, block.as_slice())
            && is_dear_last(clock, alloc, links, &wants, buf, dear, other),
    )
}

/// Whether two clients that connect are served so.
fn weigh<'b, R: Net<Stream = TcpStream>>(
    clock: &SetClock<'b, R>,
    alloc: Global,
    links: &mut MioLinks<'_, SetClock<'b, R>>,
) -> bool {
    match connect(clock, alloc, links) {
        Some((mut dear, mut other)) => {
            matches!(
                are_weighed(clock, alloc, links, &mut dear, &mut other),
                Ok(true)
            )
        }
        None => false,
    }
}

#[test]
fn a_client_is_read_by_what_its_reads_cost(rt: HostRuntime) -> Result<(), Fail> {
    let clock = SetClock {
        rt: &rt,
        secs: Cell::new(0),
        used: Cell::new(0),
    };
    let mut links = MioLinks::fresh(&clock, rt.alloc())?;
    assert!(rt; weigh(&clock, rt.alloc(), &mut links));
    Ok(())
}
