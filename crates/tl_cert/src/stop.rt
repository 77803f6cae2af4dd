//! Why reading and writing stop.

ghost use Rattle.std.specs.Prelude.{◌≡◌};
ghost use Rattle.tl_cert_output.specs.declared.stop.Stop.TheVariants.{Device as DeviceStop};

use tl_cert_output::Stop;

/// Why no further part of a certificate is read.
#[derive(Clone, Copy, Debug, PartialEq, Eq)]
pub enum CertStop {
    /// No certificate has this text. The line, counted from 1, is one more than the number of line feeds in the longest
    /// beginning of the text that also begins some certificate's text.
    Text { line: u128 },
    /// There is no memory for what was read.
    Memory,
    /// A read failed.
    Device,
}

/// Why no more of a certificate is written.
#[derive(Clone, Copy, Debug, PartialEq, Eq)]
pub enum WriteStop {
    /// A write failed, or took nothing of what it was offered.
    Device,
}

/// A write failed.
impl From<WriteStop> for Stop {
    ghost from_gives = { λ _ stop. stop ≡ DeviceStop };

    fn from(_stop: WriteStop) -> Stop {
        Stop::Device
    }
}
