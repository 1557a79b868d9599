//! Reading a message into new memory.

ghost use Rattle.std.specs.Prelude.{◌^◌, ◌<◌, IfOk};
ghost use Rattle.riemann_msg.specs.Fault.{Decodes, first_fault};
ghost use Rattle.riemann_msg.specs.Spelling.{IsSpellable};
ghost use Rattle.riemann_msg.specs.Value.{message_of};

use crate::fault::MsgFault;
use crate::msg::Msg;
use crate::read::read_msg_into;
use crate::spent::SpentEvents;
use std::alloc::Global;

/// Reads as [`read_msg_into`] does, into new memory.
pub fn read_msg(alloc: Global, body: &[u8], now: u64) -> Result<Msg, MsgFault>
    requires { now < 2 ^ 63 }
    ensures reads { Decodes (first_fault body.now) (message_of now body.now) result }
    ensures spellable { IfOk result IsSpellable }
{
    read_msg_into(alloc, body, now, SpentEvents::fresh(alloc))
}
