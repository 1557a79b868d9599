ghost use Rattle.std.specs.Prelude.{◌≡◌, Some};
ghost use Rattle.slab.specs.Slab.{HasRoomFor};
ghost use Rattle.linked_slots.specs.Table.{IsLive};
ghost use Rattle.linked_slots.specs.Nodes.{next_at, previous_at, kind_at, id_of, AreMutual, SetsNext, SetsPrevious, Cuts, Ties, Adds};

use slab::Slab;

/// A node of a ring: the head of a list, or an id in it.
#[derive(Clone, Copy)]
pub(crate) struct Node {
    pub(crate) previous: usize,
    pub(crate) next: usize,
    pub(crate) is_head: bool,
}

/// What happened to the lists.
#[derive(Clone, Copy)]
pub(crate) enum Change {
    /// The id came to the end of the list of this number.
    Append(usize, usize),
    Remove(usize),
}

/// Adds a node that is linked to itself.
pub(crate) fn add_node(nodes: &mut Slab<Node>, is_head: bool) -> usize
    requires { HasRoomFor nodes.old 1 }
    ensures { Adds nodes.old nodes.new result is_head }
{
    let key = nodes.vacant_key();
    nodes.insert_reserved(Node {
        previous: key,
        next: key,
        is_head,
    })
}

/// The id after the node, where there is one.
pub(crate) fn id_after(nodes: &Slab<Node>, key: usize) -> Option<usize>
    requires live { IsLive nodes.now.slots key }
    requires linked { AreMutual (next_at nodes.now.slots) (previous_at nodes.now.slots) }
    ensures { result ≡ id_of (kind_at nodes.now.slots (next_at nodes.now.slots key))
        (next_at nodes.now.slots key) }
{
    let next = nodes[key].next;
    if nodes[next].is_head {
        None
    } else {
        Some(next)
    }
}

/// The id before the node, where there is one.
pub(crate) fn id_before(nodes: &Slab<Node>, key: usize) -> Option<usize>
    requires live { IsLive nodes.now.slots key }
    requires linked { AreMutual (next_at nodes.now.slots) (previous_at nodes.now.slots) }
    ensures { result ≡ id_of (kind_at nodes.now.slots (previous_at nodes.now.slots key))
        (previous_at nodes.now.slots key) }
{
    let previous = nodes[key].previous;
    if nodes[previous].is_head {
        None
    } else {
        Some(previous)
    }
}

/// Links the neighbours of the node to each other, and the node to itself.
pub(crate) fn cut(nodes: &mut Slab<Node>, id: usize)
    requires live { IsLive nodes.old.slots id }
    requires linked { AreMutual (next_at nodes.old.slots) (previous_at nodes.old.slots) }
    ensures { Cuts nodes.old nodes.new id }
{
    let node = nodes[id];
    set_next(nodes, node.previous, node.next);
    set_previous(nodes, node.next, node.previous);
    set_next(nodes, id, id);
    set_previous(nodes, id, id);
}

/// Puts the node before the node `after`.
pub(crate) fn tie(nodes: &mut Slab<Node>, id: usize, after: usize)
    requires live { IsLive nodes.old.slots id }
    requires after { IsLive nodes.old.slots after }
    requires linked { AreMutual (next_at nodes.old.slots) (previous_at nodes.old.slots) }
    ensures { Ties nodes.old nodes.new id after }
{
    let previous = nodes[after].previous;
    set_next(nodes, previous, id);
    set_previous(nodes, after, id);
    set_next(nodes, id, after);
    set_previous(nodes, id, previous);
}

fn set_next(nodes: &mut Slab<Node>, at: usize, next: usize)
    requires { IsLive nodes.old.slots at }
    ensures { SetsNext nodes.old nodes.new at next }
{
    nodes[at].next = next;
}

fn set_previous(nodes: &mut Slab<Node>, at: usize, previous: usize)
    requires { IsLive nodes.old.slots at }
    ensures { SetsPrevious nodes.old nodes.new at previous }
{
    nodes[at].previous = previous;
}
