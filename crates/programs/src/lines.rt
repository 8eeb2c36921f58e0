// Lines of standard input, each held in at most so many bytes.
ghost use Rattle.std.specs.Prelude.{◌≡◌, ◌≤◌, ◌∷◌, ◌++◌, [], ◌+◌, true, false, map, string_bytes, vec_len, Decides, MatchResult, OnOk, OnErr, is_ok};

use faults::fault::Fault;
use reading::words::{join_words, split_words};
use std::alloc::{AllocError, AllocFailed, Global};
use std::str;

// The longest line that is held. A rule has at most 256 cells, and a number of at most 309 digits, so its words have room enough.
const MOST_BYTES: usize = 4096;

/// A line that grows byte by byte. Of a longer one only that it is too long is held. That is a flag beside the bytes, whose memory
// is used for the next line.
#[derive(Drop)]
pub struct Line {
    bytes: Vec<u8>,
    long: bool,
    ghost short: { vec_len bytes ≤ 4096 },
}

impl Line {
    ghost use Rattle.programs.specs.Lines.{IsText, Wordless};
    ghost use Rattle.reading.specs.Split.{WordsOf};

    pub fn new(heap: Global) -> Line
        ensures bytes { result.bytes.items ≡ [] }
        ensures long { result.long ≡ false }
    {
        Line {
            bytes: Vec::new(heap),
            long: false,
        }
    }

    pub fn is_empty(&self) -> bool
        ensures { Decides result (self.now.bytes.items ≡ []) }
    {
        self.bytes.is_empty()
    }

    pub fn clear(&mut self)
        ensures bytes { self.new.bytes.items ≡ [] }
        ensures long { self.new.long ≡ false }
    {
        self.bytes.clear();
        self.long = false;
    }

    pub fn push(&mut self, byte: u8) -> Result<(), AllocFailed<u8>>
        ensures full { vec_len self.old.bytes ≡ 4096 → (is_ok result ≡ true) × (self.new.bytes.items ≡ self.old.bytes.items) × (self.new.long ≡ true) }
        ensures room { OnOk result (vec_len self.old.bytes + 1 ≤ 4096 → (self.new.bytes.items ≡ self.old.bytes.items ++ byte ∷ []) × (self.new.long ≡ self.old.long)) }
        ensures refused { OnErr result ((self.new.bytes.items ≡ self.old.bytes.items) × (self.new.long ≡ self.old.long)) }
    {
        if self.bytes.len() == MOST_BYTES {
            self.long = true;
            return Ok(());
        }
        self.bytes.push(byte)
    }

    // The words of the line.
    pub fn words(&self, heap: Global) -> Result<Vec<String>, Fault>
        ensures { MatchResult result
            (λ v. IsText self.now × WordsOf self.now.bytes.items (map string_bytes v.items))
            (Wordless self.now) }
    {
        if self.long {
            return Err(Fault::LongLine);
        }
        let Ok(text) = str::from_utf8(self.bytes.as_slice()) else {
            return Err(Fault::NotText);
        };
        Ok(split_words(heap, text)?)
    }

    // The words of the line with a space between any two, as far as it is held and is text.
    pub fn echo(&self, heap: Global) -> Result<String, AllocError> {
        let text = String::from_utf8_lossy(heap, self.bytes.as_slice())?;
        let words = split_words(heap, text.as_str())?;
        join_words(heap, words.as_slice())
    }
}
