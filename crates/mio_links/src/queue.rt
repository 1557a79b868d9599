ghost use Rattle.std.specs.Prelude.{◌≡◌, ◌-◌, ◌++◌, ◌∷◌, [], IfErr, IsOk, OnErr, OnOk};

use crate::client::{Client, Waiting};
use crate::fault::LinksFault;
use ports::Want;
use std::alloc::Global;
use std::collections::VecDeque;
use std::io::{Read, Write};

/// What may have a turn to give.
#[derive(Clone, Copy)]
pub(crate) enum Source {
    Listener,
    Link(u64),
}

/// The sources that may have a turn to give, in the order in which they are served. A source that may have more goes to
/// the end, so that none waits for more than one turn of each other. A round is the sources that were in the queue when
/// the system was asked last, and after them one of the links that were put off.
#[derive(Drop)]
pub(crate) struct Queue {
    sources: VecDeque<Source>,
    // How many turns of this round were not given yet. The last one is for a link that was put off.
    left: usize,
    // Links whose last read was dear.
    put_off: VecDeque<u64>,
    // Links of which the server wants to hear nothing for now.
    held_back: VecDeque<u64>,
}

impl Queue {
    ghost use Rattle.mio_links.specs.Queues.{HasRoom, IsFull, is_over, next_source};

    pub(crate) fn fresh(alloc: Global) -> Queue {
        Queue {
            sources: VecDeque::new(alloc),
            left: 0,
            put_off: VecDeque::new(alloc),
            held_back: VecDeque::new(alloc),
        }
    }

    pub(crate) fn is_empty(&self) -> bool {
        self.sources.is_empty() && self.put_off.is_empty()
    }

    /// How many turns of this round were not given yet, at most.
    pub(crate) fn left(&self) -> usize {
        self.left
    }

    /// Whether this round has no turn to give any more.
    pub(crate) fn is_round_over(&self) -> bool
        ensures { result ≡ is_over self.now }
    {
        self.left == 0 || self.left == 1 && self.put_off.is_empty()
    }

    /// Begins a round with all that is in the queue.
    pub(crate) fn begin_round(&mut self) {
        self.left = self.sources.len().saturating_add(1);
    }

    /// Removes the next source of this round. After all others it is the link that was put off first.
    pub(crate) fn take(&mut self) -> Option<Source>
        ensures next { result ≡ next_source self.old }
        ensures left { self.new.left ≡ self.old.left - 1 }
    {
        self.left = self.left.saturating_sub(1);
        if self.left > 0 {
            return self.sources.pop_front();
        }
        match self.put_off.pop_front() {
            Some(link) => Some(Source::Link(link)),
            None => None,
        }
    }

    /// Puts the link off to the end of a round. It takes no memory.
    pub(crate) fn put_off<S: Read + Write>(&mut self, client: &mut Client<S>, link: u64)
        requires { HasRoom self.old }
        ensures last { self.new.put_off.items ≡ self.old.put_off.items ++ link ∷ [] }
        ensures waiting { client.new.waiting ≡ Waiting.PutOff }
    {
        client.waiting = Waiting::PutOff;
        self.put_off.push_back_reserved(link);
    }

    /// Adds a source at the end.
    pub(crate) fn push(&mut self, source: Source) -> Result<(), LinksFault>
        ensures memory { IfErr result (λ fault. fault ≡ LinksFault.Memory) }
        ensures full { OnErr result (IsFull self.old) }
    {
        self.sources.push_back(source)?;
        Ok(())
    }

    /// Takes memory for one link more, wherever it will wait.
    pub(crate) fn make_room(&mut self) -> Result<(), LinksFault>
        ensures room { OnOk result (HasRoom self.new) }
        ensures reserved { HasRoom self.old → IsOk result }
    {
        self.sources.reserve(1)?;
        self.put_off.reserve(1)?;
        self.held_back.reserve(1)?;
        Ok(())
    }

    /// Adds the link to the queue, or to the links that are held back, if it has anything to give. It takes no memory.
    pub(crate) fn enter<S: Read + Write>(&mut self, client: &mut Client<S>, want: &Want)
        requires { HasRoom self.old }
        ensures share { client.new.share ≡ client.old.share }
    {
        client.waiting = client.next_waiting(want);
        match client.waiting {
            Waiting::Queued => self.sources.push_back_reserved(Source::Link(want.link)),
            Waiting::HeldBack => self.held_back.push_back_reserved(want.link),
            Waiting::PutOff | Waiting::Nowhere => {}
        }
    }

    /// How many links are held back.
    pub(crate) fn held_back(&self) -> usize {
        self.held_back.len()
    }

    /// Removes the link that was held back first.
    pub(crate) fn take_held_back(&mut self) -> Option<u64> {
        self.held_back.pop_front()
    }
}
