ghost use Rattle.std.specs.Prelude.{◌≡◌, true, Ok, OnOk};
ghost use Rattle.conn_core.specs.Known.{AreUnclosed, IsOpenedBy, IsUnclosed};
ghost use Rattle.conn_core.specs.Reaching.{links_after, AddsLink, Changes, Finishes, Settles};
ghost use Rattle.hub_link.specs.Added.{Added};
ghost use Rattle.hub_link.specs.hub_meaning.Links.{broken, changed, ended, opened, unblocked};
ghost use Rattle.conn_core.specs.Kept.{is_newer, IsAt};

use crate::table::LinkTable;
use ev_types::Memory;
use hub_link::HubLink;
use hub_link::hub_meaning::may_connect;
use ports::{Links, What};
use std::alloc::Global;

/// What happened on a link, where nothing was read: then the link is sent what is unsent, and closed if it is over.
pub(crate) fn change<L: Links>(
    alloc: Global,
    table: &mut LinkTable<HubLink>,
    what: What,
    links: &mut L,
) -> Result<(), Memory>
    requires known { AreUnclosed (L.report links.old).log table.old.wants }
    requires opened { IsOpenedBy (L.report links.old).log what }
    ensures known { OnOk result (AreUnclosed (L.report links.new).log table.new.wants) }
    ensures changes { Added (L.report links.old) (L.report links.new)
        (Changes (links_after what) table.old table.new result) }
{
    match what {
        What::Opened { link } => open(alloc, table, link, links),
        What::Ended { link } => end(alloc, table, link, links),
        What::Broken { link } => fail(alloc, table, link, links),
        What::Room { link } => unblock(alloc, table, link, links),
        What::Idle | What::Read { .. } | What::Stopped | What::Failed | What::Memory => Ok(()),
    }
}

/// A link was opened. One too many is closed at once. One whose number is not above all that came before is ignored.
fn open<L: Links>(
    alloc: Global,
    table: &mut LinkTable<HubLink>,
    number: u64,
    links: &mut L,
) -> Result<(), Memory>
    requires known { AreUnclosed (L.report links.old).log table.old.wants }
    requires opened { IsUnclosed (L.report links.old).log number }
    ensures known { OnOk result (AreUnclosed (L.report links.new).log table.new.wants) }
    ensures changes { Added (L.report links.old) (L.report links.new)
        (Changes (opened number) table.old table.new result) }
{
    if !table.is_newer(number) {
        return Ok(());
    }
    if !may_connect(table.len()) {
        table.note(number);
        links.close(number);
        return Ok(());
    }
    add(alloc, table, number)?;
    Ok(())
}

/// Keeps a link that was opened.
fn add(alloc: Global, table: &mut LinkTable<HubLink>, number: u64) -> Result<(), Memory>
    requires { is_newer number table.old.newest ≡ true }
    ensures { OnOk result (AddsLink number table.old table.new) }
{
    let link = HubLink::open(alloc, number);
    table.add(alloc, link.want(), link)?;
    Ok(())
}

/// The client of the link sends no more.
fn end<L: Links>(
    alloc: Global,
    table: &mut LinkTable<HubLink>,
    number: u64,
    links: &mut L,
) -> Result<(), Memory>
    requires { AreUnclosed (L.report links.old).log table.old.wants }
    ensures known { OnOk result (AreUnclosed (L.report links.new).log table.new.wants) }
    ensures changes { Added (L.report links.old) (L.report links.new)
        (Changes (changed number ended) table.old table.new result) }
{
    let Some(place) = table.find(number) else {
        return Ok(());
    };
    table.value_mut(place).end(alloc);
    settle(alloc, table, number, place, links)?;
    Ok(())
}

/// The link does not work any more.
fn fail<L: Links>(
    alloc: Global,
    table: &mut LinkTable<HubLink>,
    number: u64,
    links: &mut L,
) -> Result<(), Memory>
    requires { AreUnclosed (L.report links.old).log table.old.wants }
    ensures known { OnOk result (AreUnclosed (L.report links.new).log table.new.wants) }
    ensures changes { Added (L.report links.old) (L.report links.new)
        (Changes (changed number broken) table.old table.new result) }
{
    let Some(place) = table.find(number) else {
        return Ok(());
    };
    table.value_mut(place).fail();
    settle(alloc, table, number, place, links)?;
    Ok(())
}

/// The link may be sent to again.
fn unblock<L: Links>(
    alloc: Global,
    table: &mut LinkTable<HubLink>,
    number: u64,
    links: &mut L,
) -> Result<(), Memory>
    requires { AreUnclosed (L.report links.old).log table.old.wants }
    ensures known { OnOk result (AreUnclosed (L.report links.new).log table.new.wants) }
    ensures changes { Added (L.report links.old) (L.report links.new)
        (Changes (changed number unblocked) table.old table.new result) }
{
    let Some(place) = table.find(number) else {
        return Ok(());
    };
    table.value_mut(place).unblock();
    settle(alloc, table, number, place, links)?;
    Ok(())
}

/// Sends what is unsent on the link at this place. Then the link is closed if it is over, or what is wanted of it is
/// noted.
pub(crate) fn settle<L: Links>(
    alloc: Global,
    table: &mut LinkTable<HubLink>,
    number: u64,
    place: usize,
    links: &mut L,
) -> Result<(), Memory>
    requires at { IsAt number table.old place }
    requires known { AreUnclosed (L.report links.old).log table.old.wants }
    ensures known { OnOk result (AreUnclosed (L.report links.new).log table.new.wants) }
    ensures settles { Added (L.report links.old) (L.report links.new)
        (Settles table.old table.new number place result) }
{
    table.value_mut(place).send_all(alloc, links)?;
    finish(alloc, table, number, place, links);
    Ok(())
}

/// Closes the link at this place if it is over, or else notes what is wanted of it.
fn finish<L: Links>(
    alloc: Global,
    table: &mut LinkTable<HubLink>,
    number: u64,
    place: usize,
    links: &mut L,
)
    requires at { IsAt number table.old place }
    requires known { AreUnclosed (L.report links.old).log table.old.wants }
    ensures known { AreUnclosed (L.report links.new).log table.new.wants }
    ensures finishes { Added (L.report links.old) (L.report links.new)
        (Finishes table.old table.new number place (Ok tt)) }
{
    let link = table.value(place);
    if link.is_over() {
        table.remove(alloc, place);
        links.close(number);
    } else {
        let want = link.want();
        table.set_want(alloc, place, want.read, want.room);
    }
}
