ghost use Rattle.std.specs.Prelude.{◌≡◌};
ghost use Rattle.riemann_msg.specs.declared.fault.MsgFault.TheVariants.{Memory as out_of_memory};

use ev_types::Memory;
use pb_wire::WireWhy;
use std::fmt;
use thiserror::Error;

/// Why a message was not read.
#[derive(Clone, Copy, Debug, PartialEq, Eq, Error)]
pub enum MsgFault {
    /// The message is refused at `place`, counted in bytes from its start.
    #[error("message refused at {place}: {why}")]
    Refused { place: usize, why: MsgWhy },
    /// Out of memory.
    #[error("out of memory")]
    Memory,
}

/// For what a message is refused.
#[derive(Clone, Copy, Debug, PartialEq, Eq)]
pub enum MsgWhy {
    /// The bytes end within a field.
    Short,
    /// Ten bytes of a varint all have the high bit.
    Varint,
    /// A tag is 2^32 or more, or the number in it is 0.
    Tag,
    /// The type in a tag is not known.
    Wire,
    /// A text is not UTF-8.
    Utf8,
    /// An attribute has no key.
    Key,
    /// A ttl is not a whole number of seconds from 0 to 2^31 - 128.
    Ttl,
}

impl MsgWhy {
    ghost use Rattle.riemann_msg.specs.Fault.{why_name};

    /// The name of the cause, as replies have it.
    pub fn name(self) -> &'static str
        ensures { result.now ≡ why_name self }
    {
        match self {
            MsgWhy::Short => "short",
            MsgWhy::Varint => "varint",
            MsgWhy::Tag => "tag",
            MsgWhy::Wire => "wire",
            MsgWhy::Utf8 => "utf8",
            MsgWhy::Key => "key",
            MsgWhy::Ttl => "ttl",
        }
    }
}

impl fmt::Display for MsgWhy {
    fn fmt<W: fmt::Write>(&self, f: &mut fmt::Formatter<W>) -> fmt::Result {
        let name = self.name();
        write!(f, "{name}")
    }
}

impl From<Memory> for MsgFault {
    ghost from_gives = { λ _ fault. fault ≡ out_of_memory };

    fn from(_memory: Memory) -> MsgFault {
        MsgFault::Memory
    }
}

impl From<WireWhy> for MsgWhy {
    ghost use Rattle.riemann_msg.specs.Fault.{why_of};

    ghost from_gives = { λ wire why. why ≡ why_of wire };

    fn from(wire: WireWhy) -> MsgWhy {
        match wire {
            WireWhy::Short => MsgWhy::Short,
            WireWhy::Varint => MsgWhy::Varint,
            WireWhy::Tag => MsgWhy::Tag,
            WireWhy::Wire => MsgWhy::Wire,
        }
    }
}
