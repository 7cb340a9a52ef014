//! Two streams of bytes, one each way.

ghost use Rattle.std.specs.Prelude.{◌<◌, [], ◌∷◌, length, OnOk, OnErr};
ghost use Rattle.std.specs.Io.{ReadsAtMost};
ghost use Rattle.std.specs.Io.KnownBytes.{Appends, Keeps, ReadConsumes};
ghost use Rattle.lt_io.specs.Causes.{HasCause};
ghost use Rattle.lt_io.specs.Link.{FitsAfter, Link, receiving, sending};
ghost use Rattle.lt_io.specs.Sending.{AppendsPrefix};

use crate::sink::Failed;

/// A link to another program: bytes go to it, and bytes come from it.
pub trait Link {
    // what it tells of itself
    ghost state: { Self → Link };

    /// Sends all of these bytes.
    ///
    /// `Failed` comes only where the count of faults rose, and then a prefix of the bytes was sent, perhaps none
    /// or all of them. What is still to come stays.
    fn send(&mut self, bytes: &[u8]) -> Result<(), Failed>
        ensures all { OnOk result (Appends (state self.old).sent (state self.new).sent bytes.now) }
        ensures prefix { OnErr result
            (AppendsPrefix (state self.old).sent (state self.new).sent bytes.now) }
        ensures stays { Keeps (state self.old).left (state self.new).left }
        ensures fitting { FitsAfter (state self.old).fits (state self.new).fits
            (sending result bytes.now ∷ []) }
        ensures cause { HasCause (state self.old).faults (state self.new).faults result };

    /// Receives the next bytes into the start of `into`, which is not empty, and answers how many: 0 exactly at
    /// the end of what comes, and else one at least, and perhaps fewer than there is room for.
    ///
    /// `Failed` comes only where the count of faults rose, and then nothing was received. What was sent stays.
    fn recv(&mut self, into: &mut [u8]) -> Result<usize, Failed>
        requires { 0 < length into.old }
        ensures within { ReadsAtMost result into.new }
        ensures takes { ReadConsumes (state self.old).left (state self.new).left result into.new }
        ensures stays { Keeps (state self.old).sent (state self.new).sent }
        ensures fitting { FitsAfter (state self.old).fits (state self.new).fits
            (receiving result into.new ∷ []) }
        ensures cause { HasCause (state self.old).faults (state self.new).faults result };
}
