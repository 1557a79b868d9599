//! What holds of the exchange of a client, whatever turns it took.

ghost use Rattle.riemann_client.specs.Run.{LastIsSound, TurnsAreSound};

/// While an exchange goes on, and after one turn more with the sends in it, the bytes taken from a client are a prefix
/// of the frames of its requests. The replies that are accepted are the first of the frames that were read from the
/// link. Each became whole in a turn before which the request of its number was sent whole.
pub fn exchanges_are_sound()
    ensures turns { TurnsAreSound }
    ensures last { LastIsSound }
{}
