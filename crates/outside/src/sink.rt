// A sink of bytes.
ghost use Rattle.std.specs.Prelude.{◌≡◌, ◌≤◌, ◌<◌, length, take, IfOk, OnOk, OnErr};
ghost use Rattle.outside.specs.Meaning.{SinkState, Rose, written_more, WroteProperPrefix};

/// Why a sink doesn't do what it was called for.
#[derive(Clone, Copy, Debug, PartialEq, Eq)]
pub enum SinkError {
    /// The sink failed.
    Failed,
}

/// Where output goes.
pub trait Sink {
    /// What was written, where it tells it, and its count. What is told stays told.
    ghost state: { Self → SinkState };

    /// Takes the front of the piece, and answers how many bytes it took: at least one, where the
    /// piece isn't empty.
    fn write(&mut self, piece: &[u8]) -> Result<usize, SinkError>
        ensures counts { (state self.old).faults ≤ (state self.new).faults }
        ensures within { IfOk result (λ count. count ≤ length piece.now) }
        ensures some { IfOk result (λ count. 0 < length piece.now → 0 < count) }
        ensures written { IfOk result (λ count. (state self.new).written ≡ written_more (state self.old).written (take count piece.now)) }
        ensures failed { OnErr result (Rose (state self.old).faults (state self.new).faults) }
        ensures kept { OnErr result ((state self.new).written ≡ (state self.old).written) };
}

/// Writes all of the bytes, or a proper prefix of them where the sink fails. It takes no memory.
pub fn write_all<K: Sink>(sink: &mut K, bytes: &[u8]) -> Result<(), SinkError>
    ensures counts { (K.state sink.old).faults ≤ (K.state sink.new).faults }
    ensures written { OnOk result ((K.state sink.new).written ≡ written_more (K.state sink.old).written bytes.now) }
    ensures failed { OnErr result (Rose (K.state sink.old).faults (K.state sink.new).faults) }
    ensures part { OnErr result (WroteProperPrefix bytes.now (K.state sink.old) (K.state sink.new)) }
{
    let mut rest = bytes;
    while !rest.is_empty() {
        match sink.write(rest) {
            Ok(count) => rest = rest.split_at(count).1,
            Err(failed) => return Err(failed),
        }
    }
    Ok(())
}
