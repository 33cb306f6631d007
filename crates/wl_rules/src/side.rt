//! Who writes a message, and what it destroys.
ghost use Rattle.std.specs.Prelude.{◌≡◌};
ghost use Rattle.wl_rules.specs.Tables.{destroys_one};

/// What a message destroys.
#[derive(Clone, Copy, Debug, PartialEq, Eq)]
pub enum Destroys {
    /// No object.
    Nothing,
    /// The message's target: the message is a destructor.
    Target,
    /// The object that the argument at this index, from 0, names.
    Arg(usize),
}

impl Destroys {
    /// Whether the message destroys an object.
    pub fn destroys_one(self) -> bool
        ensures { result ≡ destroys_one self }
    {
        match self {
            Destroys::Nothing => false,
            Destroys::Target | Destroys::Arg(_) => true,
        }
    }
}

/// Who writes a message: a client writes requests, a server events.
#[derive(Clone, Copy, Debug, PartialEq, Eq)]
pub enum Side {
    /// From the client to the server.
    Request,
    /// From the server to the client.
    Event,
}
