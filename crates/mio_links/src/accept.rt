ghost use Rattle.std.specs.Prelude.{◌≡◌};
ghost use Rattle.mio_links.specs.Refusals.{refusal};

/// What the system says where it gives no connection to accept.
#[derive(Clone, Copy, PartialEq, Eq)]
pub enum Refusal {
    /// No connection waits.
    NoneWaits,
    /// One connection failed and is gone. Others may wait.
    OneConnection,
    /// The system or the process lacks something that it may have again later. The connection may wait until then.
    Lack,
    /// The listener failed.
    Listener,
}

/// What a failure of accept with this number of the system says (Linux, accept(2)). Only a failure of the listener is
/// one that all links have.
pub fn refusal_of(code: u32) -> Refusal
    ensures { result ≡ refusal code }
{
    match code {
        // EAGAIN
        11 => Refusal::NoneWaits,
        // EINTR, ENONET, EPROTO, ENOPROTOOPT, EOPNOTSUPP, ENETDOWN, ENETUNREACH, ECONNABORTED, EHOSTDOWN, EHOSTUNREACH
        4 | 64 | 71 | 92 | 95 | 100 | 101 | 103 | 112 | 113 => Refusal::OneConnection,
        // EPERM, ENOMEM, ENFILE, EMFILE, ENOBUFS
        1 | 12 | 23 | 24 | 105 => Refusal::Lack,
        _ => Refusal::Listener,
    }
}
