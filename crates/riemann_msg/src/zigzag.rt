//! The zigzag form of signed numbers: 0, -1, 1, -2, 2 .. as 0, 1, 2, 3, 4 ..

ghost use Rattle.std.specs.Prelude.{◌≡◌};
ghost use Rattle.riemann_msg.specs.Value.{unzigzag};
ghost use Rattle.riemann_msg.specs.Spelling.{zigzag};

/// The signed number that `value` represents in the field type sint64.
pub fn unzigzag(value: u64) -> i64
    ensures { result ≡ unzigzag value }
{
    let half = (value / 2) as i64;
    if value % 2 == 0 { half } else { -1 - half }
}

/// The unsigned number that represents `value` in the field type sint64.
pub fn zigzag(value: i64) -> u64
    ensures { result ≡ zigzag value }
{
    if value >= 0 {
        2 * value as u64
    } else {
        2 * (-1 - value) as u64 + 1
    }
}
