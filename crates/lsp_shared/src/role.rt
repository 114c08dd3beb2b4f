//! Who calls through a seat.
ghost use Rattle.std.specs.Prelude.{Bool, true, false};

/// Who calls through a seat.
pub trait Role {
    // Whether it is the session.
    ghost owns: { Bool };
}

/// The session, which makes calls of both kinds.
pub struct Owner;

impl Role for Owner {
    ghost owns = { true };
}

/// Another thread of the server.
pub struct Client;

impl Role for Client {
    ghost owns = { false };
}
