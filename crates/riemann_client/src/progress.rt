use riemann_msg::MsgWhy;

/// What a turn of a client comes to.
#[derive(Clone, Copy)]
pub enum Progress {
    /// Each reply so far was accepted, and requests are left without one.
    More,
    /// Each request has a reply.
    Whole,
    /// The reply of this number, from 0, became whole in a turn before which the request of that number was not sent
    /// whole.
    Unasked {
        number: u64,
    },
    /// The reply of this number, from 0, is not a message, for the first fault, at `place` in its body.
    Refused {
        number: u64,
        place: usize,
        why: MsgWhy,
    },
    /// Requests are left without a reply, and no reply can come: the link ended or broke, a send on it failed, a length
    /// over the limit came, or the links were stopped.
    Lost,
    /// Out of memory. Nothing is known of the client after it.
    Memory,
}
