ghost use Rattle.std.specs.Prelude.{ℕ, ◌≡◌, ◌+◌, ◌<◌, ◌≤◌, [], List, take, length, IfOk, OnOk, OnErr, IfSome, Err};
ghost use Rattle.port_base.specs.Faults.{Rose};
ghost use Rattle.port_io.specs.Port.{LosesFront};
ghost use Rattle.port_base.specs.Told.{with_front, with_more};

use crate::port::{Got, Put, Sink, Source};
use std::alloc::{AllocError, Global};

/// Why not all of a source was read.
#[derive(Clone, Copy, Debug, PartialEq, Eq)]
pub enum ReadAll {
    ReadFault,
    /// It gave more bytes than the limit.
    TooLong,
    Memory,
}

impl From<AllocError> for ReadAll {
    ghost use Rattle.std.specs.Prelude.{◌≡◌};
    ghost use Rattle.port_io.specs.declared.whole.ReadAll.TheVariants.{Memory};

    ghost from_gives = { λ _ e. e ≡ Memory };

    fn from(_: AllocError) -> ReadAll {
        ReadAll::Memory
    }
}

/// A sink failed.
#[derive(Clone, Copy, Debug, PartialEq, Eq)]
pub struct WriteFault;

/// Reads all that is left, which may be at most `limit` bytes.
pub fn read_all<S: Source>(alloc: Global, source: &mut S, limit: usize) -> Result<Vec<u8>, ReadAll>
    requires { limit < 18446744073709551615 }

    // All that was left is read, and nothing is left then.
    ensures ok { IfOk result (λ bytes. S.left source.old ≡ with_front bytes.items (S.left source.new)) }
    ensures end { OnOk result (IfSome (S.left source.new) (λ rest. rest ≡ [])) }
    ensures bound { IfOk result (λ bytes. length bytes.items ≤ limit) }

    // What is read before an error isn't left any more.
    ensures err { OnErr result (LosesFront (S.left source.old) (S.left source.new)) }

    ensures too_long { result ≡ Err ReadAll.TooLong → IfSome (S.left source.old) (λ bytes. limit < length bytes) }
    ensures fault { result ≡ Err ReadAll.ReadFault → Rose (S.faults source.old) (S.faults source.new) }
    ensures faults { S.faults source.old ≤ S.faults source.new }
{
    let mut bytes = Vec::new(alloc);
    let mut buffer = [0; 4096];
    for _turn in 0..limit + 1 {
        match source.read(&mut buffer) {
            Got::Bytes(count) => {
                if count > limit - bytes.len() {
                    return Err(ReadAll::TooLong);
                }
                bytes.extend_from_slice(&buffer[..count])?;
            }
            Got::End => return Ok(bytes),
            Got::Failed => return Err(ReadAll::ReadFault),
        }
    }
    unreachable!()
}

/// Writes a whole piece. What a fault leaves behind is a front of it.
pub fn write_piece<K: Sink>(sink: &mut K, piece: &[u8]) -> Result<(), WriteFault>
    ensures ok { OnOk result (K.held sink.new ≡ with_more (K.held sink.old) piece.now) }
    ensures front { OnErr result ((n : ℕ) × (n ≤ length piece.now)
        × (K.held sink.new ≡ with_more (K.held sink.old) (take n piece.now))) }
    ensures fault { OnErr result (Rose (K.faults sink.old) (K.faults sink.new)) }
    ensures faults { K.faults sink.old ≤ K.faults sink.new }
{
    let mut taken = 0;
    while taken < piece.len() {
        match sink.write(&piece[taken..]) {
            Put::Took(count) => taken += count,
            Put::Failed => return Err(WriteFault),
        }
    }
    Ok(())
}
