//! One owner of a line and a dictionary.
ghost use Rattle.std.specs.Prelude.{◌≡◌, Bool, length};
ghost use Rattle.line.specs.Meanings.{sent, handed_out, taken};
ghost use Rattle.line.specs.declared.end.End.TheVariants.{Master};
ghost use Rattle.dictionary.specs.Commits.{decided, committed};
ghost use Rattle.dictionary.specs.Entries.{Lawful};
ghost use Rattle.dictionary.specs.Questions.{value_at};
ghost use Rattle.dictionary.specs.Verdicts.{read_verdict, write_verdict};
ghost use Rattle.layer_tests.specs.Stations.{length_or};

use dictionary::{Readable, Writable};
use line::{End, Line};
use wire::{AbortCode, Frame, LONGEST, Multiplexor};

/// A line and a dictionary, which nothing else reaches.
#[derive(Drop)]
pub struct Station<L: Line, D: Writable> {
    line: L,
    dictionary: D,
}

impl<L: Line, D: Writable> Station<L, D> {
    /// The owner of a line and a dictionary.
    pub fn new(line: L, dictionary: D) -> Self
        ensures line { result.line ≡ line }
        ensures dictionary { result.dictionary ≡ dictionary }
    {
        Station { line, dictionary }
    }

    /// Sends a frame to the master and sets a value, or says what speaks against the value.
    pub fn send_and_set(
        &mut self,
        frame: Frame,
        multiplexor: Multiplexor,
        value: &[u8],
    ) -> Result<(), AbortCode>
        ensures answer { result ≡ decided (write_verdict (D.Readable.meaning self.old.dictionary) multiplexor value.now) }
        ensures line { (lost : Bool) × (L.Line.shows self.new.line ≡ sent Master frame lost (L.Line.shows self.old.line)) }
        ensures dictionary { D.Readable.meaning self.new.dictionary ≡ committed (D.Readable.meaning self.old.dictionary) multiplexor value.now }
        ensures lawful { Lawful (committed (D.Readable.meaning self.old.dictionary) multiplexor value.now) }
    {
        self.line.send(End::Master, frame);
        self.dictionary.commit(multiplexor, value)
    }

    /// The first frame that waits for the master.
    pub fn take(&mut self) -> Option<Frame>
        ensures answer { result ≡ handed_out Master (L.Line.shows self.old.line) }
        ensures line { L.Line.shows self.new.line ≡ taken Master (L.Line.shows self.old.line) }
        ensures dictionary { self.new.dictionary ≡ self.old.dictionary }
    {
        self.line.take(End::Master)
    }

    /// The length of a value, or the verdict on the read; a buffer of 1,024 bytes suffices for every dictionary.
    pub fn value_length(&self, multiplexor: Multiplexor) -> Result<usize, AbortCode>
        ensures { result ≡ length_or (read_verdict (D.Readable.meaning self.now.dictionary) multiplexor) (length (value_at (D.Readable.meaning self.now.dictionary) multiplexor)) }
    {
        let mut buffer = [0; LONGEST];
        Ok(self.dictionary.copy_value(multiplexor, &mut buffer)?)
    }
}
