//! Numbers at the start of bytes, each given with the bytes after it.

ghost use Rattle.std.specs.Prelude.{◌≡◌, IfErr};
ghost use Rattle.std.specs.Int.{w16, w32, w64};
ghost use Rattle.journal_format.specs.Reading.{Gives, number_at};

use crate::unread::Unread;

pub(crate) fn u16_at(bytes: &[u8]) -> Result<(u16, &[u8]), Unread>
    ensures { Gives (λ x. (x.0, x.1.now)) result (number_at w16 bytes.now) }
{
    match bytes.split_first_chunk::<2>() {
        Some((number, rest)) => Ok((u16::from_be_bytes(*number), rest)),
        None => Err(Unread::Refused),
    }
}

pub(crate) fn u32_at(bytes: &[u8]) -> Result<(u32, &[u8]), Unread>
    ensures read { Gives (λ x. (x.0, x.1.now)) result (number_at w32 bytes.now) }
    ensures refused { IfErr result (λ why. why ≡ Unread.Refused) }
{
    match bytes.split_first_chunk::<4>() {
        Some((number, rest)) => Ok((u32::from_be_bytes(*number), rest)),
        None => Err(Unread::Refused),
    }
}

pub(crate) fn u64_at(bytes: &[u8]) -> Result<(u64, &[u8]), Unread>
    ensures { Gives (λ x. (x.0, x.1.now)) result (number_at w64 bytes.now) }
{
    match bytes.split_first_chunk::<8>() {
        Some((number, rest)) => Ok((u64::from_be_bytes(*number), rest)),
        None => Err(Unread::Refused),
    }
}
