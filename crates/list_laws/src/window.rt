ghost use Rattle.std.specs.Prelude.{◌≡◌, ◌+◌, ◌*◌, ◌<◌, ◌≤◌};
ghost use Rattle.list_laws.specs.Window.{window_number};

/// The number, from 0, of the window that the moment `t` is in, where a window has `len` seconds and the first one
/// begins at the moment `s0`.
pub fn window_of(t: u64, s0: u64, len: u64) -> u64
    requires positive { 0 < len }
    requires begun { s0 ≤ t }
    ensures number { result ≡ window_number t s0 len }
    ensures begins { s0 + result * len ≤ t }
    ensures ends { t < s0 + (result + 1) * len }
{
    (t - s0) / len
}
