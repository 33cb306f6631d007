//! Messages that are written straight into their destination.
ghost use Rattle.std.specs.Prelude.{◌≡◌, length};

/// A message that can be written.
pub trait Encode {
    /// The bytes of the whole message.
    ghost message: { Self → Rattle.std.specs.Prelude.List Rattle.std.specs.Prelude.ℕ };

    /// Whether the message can be written.
    ghost fits: { Self → Type 0 };

    /// How many bytes the whole message has.
    fn encoded_len(&self) -> usize
        requires { fits self.now }
        ensures { result ≡ length (message self.now) };

    /// Writes the message over `out`, which is exactly as long as the message.
    fn encode(&self, out: &mut [u8])
        requires fits { fits self.now }
        requires len { length out.old ≡ length (message self.now) }
        ensures { out.new ≡ message self.now };
}
