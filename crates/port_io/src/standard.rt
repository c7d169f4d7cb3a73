ghost use Rattle.std.specs.Prelude.{◌≡◌, ◌+◌, ◌≤◌, min, OnOk, OnErr};
ghost use Rattle.port_base.specs.Faults.{Rose};

use crate::port::{Got, Put, Sink, Source};
use crate::whole::WriteFault;
use port_base::FaultCount;
use std::io::{ErrorKind, Read, Write};

/// A source over any reader of std. It tells no bytes.
#[derive(Drop)]
pub struct StdSource<R: Read + Drop> {
    reader: R,
    faults: FaultCount,
}

impl<R: Read + Drop> StdSource<R> {
    pub fn new(reader: R) -> StdSource<R>
        ensures { result ≡ record { reader = reader; faults = 0 } }
    {
        StdSource {
            reader,
            faults: FaultCount::new(),
        }
    }

    fn fail(&mut self) -> Got
        ensures answer { result ≡ Got.Failed }
        ensures later { self.old.faults ≤ self.new.faults }
        ensures rose { Rose self.old.faults self.new.faults }
    {
        self.faults.rise();
        Got::Failed
    }
}

impl<R: Read + Drop> Source for StdSource<R> {
    ghost use Rattle.std.specs.Prelude.{None};

    ghost left = { λ _. None };

    ghost faults = { λ s. s.faults };

    // A read that a signal interrupts is made again.
    fn read(&mut self, buf: &mut [u8]) -> Got {
        for _turn in 0..u64::MAX {
            match self.reader.read(buf) {
                Ok(0) => return Got::End,
                Ok(count) => return Got::Bytes(count),
                Err(error) if error.kind() == ErrorKind::Interrupted => {}
                Err(_) => return self.fail(),
            }
        }
        self.fail()
    }
}

/// A sink over any writer of std. It tells no bytes.
#[derive(Drop)]
pub struct StdSink<W: Write + Drop> {
    writer: W,
    faults: FaultCount,
}

impl<W: Write + Drop> StdSink<W> {
    pub fn new(writer: W) -> StdSink<W>
        ensures { result ≡ record { writer = writer; faults = 0 } }
    {
        StdSink {
            writer,
            faults: FaultCount::new(),
        }
    }

    fn fail(&mut self) -> Put
        ensures answer { result ≡ Put.Failed }
        ensures later { self.old.faults ≤ self.new.faults }
        ensures rose { Rose self.old.faults self.new.faults }
    {
        self.faults.rise();
        Put::Failed
    }

    /// Hands on what the writer still keeps in a buffer of its own.
    pub fn flush(&mut self) -> Result<(), WriteFault>
        ensures ok { OnOk result (self.new.faults ≡ self.old.faults) }
        ensures fault { OnErr result (self.new.faults ≡ min (self.old.faults + 1) 18446744073709551615) }
    {
        if self.writer.flush().is_err() {
            self.faults.rise();
            return Err(WriteFault);
        }
        Ok(())
    }
}

impl<W: Write + Drop> Sink for StdSink<W> {
    ghost use Rattle.std.specs.Prelude.{None};

    ghost held = { λ _. None };

    ghost faults = { λ s. s.faults };

    // A write that a signal interrupts is made again.
    fn write(&mut self, piece: &[u8]) -> Put {
        for _turn in 0..u64::MAX {
            match self.writer.write(piece) {
                Ok(0) => return self.fail(),
                Ok(count) => return Put::Took(count),
                Err(error) if error.kind() == ErrorKind::Interrupted => {}
                Err(_) => return self.fail(),
            }
        }
        self.fail()
    }
}
