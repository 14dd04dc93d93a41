// Lines of bounded length: the memory for one line is got once, and no line can use up more.
ghost use Rattle.std.specs.Prelude.{◌≡◌, ◌≤◌, ℕ, List, [], ◌∷◌, ◌++◌, length, IfOk, IfSome, IfNone, option_to_list, OnOk, OnErr, vec_len, vec_capacity};
ghost use Rattle.std.specs.Io.KnownBytes.{Consumes, IsAtEnd};
ghost use Rattle.desk.specs.Lines.{Holds, LineTaken};

use std::alloc::{AllocError, Global};
use std::io;
use std::io::{ErrorKind, Read};
use std::marker::Model;
use thiserror::Error;

pub const LINE_LIMIT: usize = 1_048_576;

const LINE_END: u8 = b'\n';

#[derive(Drop)]
pub struct Line {
    bytes: Vec<u8>,
    ghost room: { 1_048_576 ≤ vec_capacity bytes },
    ghost few: { vec_len bytes ≤ 1_048_576 },
}

// A line is the bytes that are kept of it.
impl Model for Line {
    ghost Value = { List ℕ };

    ghost view = { λ line. line.bytes.items };
}

#[derive(Clone, Copy, Debug, PartialEq, Eq, Error)]
#[error("expected a line of at most {LINE_LIMIT} bytes")]
pub struct TooLong;

impl Line {
    pub fn new(heap: Global) -> Result<Line, AllocError>
        ensures { IfOk result (λ line. line ≡ []) }
    {
        let bytes = Vec::with_capacity(heap, LINE_LIMIT)?;
        Ok(Line { bytes })
    }

    pub fn as_slice(&self) -> &[u8]
        ensures items { result.now ≡ self.now }
        ensures few { length result.now ≤ LINE_LIMIT }
    {
        self.bytes.as_slice()
    }

    // Adds a byte, or answers that there is no room for it.
    fn keep(&mut self, byte: u8) -> Result<(), TooLong>
        ensures room { OnOk result (self.new ≡ self.old ++ byte ∷ []) }
        ensures full { OnErr result (length self.old ≡ LINE_LIMIT) }
        ensures same { OnErr result (self.new ≡ self.old) }
        ensures few { length self.new ≤ LINE_LIMIT }
    {
        if self.bytes.len() == LINE_LIMIT {
            return Err(TooLong);
        }
        self.bytes.push_reserved(byte);
        Ok(())
    }

    // Reads up to the next end of a line, if any byte is left. The input may end in the middle of a line, which then counts as a whole one.
    pub fn read<R: Read>(&mut self, input: &mut R) -> io::Result<Option<Result<(), TooLong>>>
        ensures line { IfOk result (λ read. Holds read self.new) }
        ensures taken { IfOk result (λ read. IfSome (R.remaining input.old) (λ before.
            LineTaken read before (R.remaining input.new) self.new)) }
    {
        self.bytes.clear();
        let mut kept = Ok(());
        // A byte at a time: `bytes()` does not say what it leaves of the input that it borrows.
        for _ in 0..u64::MAX {
            match next_byte(input)? {
                None => return Ok((!self.bytes.is_empty()).then_some(kept)),
                Some(LINE_END) => return Ok(Some(kept)),
                Some(byte) => kept = kept.and(self.keep(byte)),
            }
        }
        Err(io::Error::from(ErrorKind::TimedOut))
    }
}

// The next byte of the input, or none at its end. A read that a signal interrupts is made again.
fn next_byte<R: Read>(input: &mut R) -> io::Result<Option<u8>>
    ensures taken { IfOk result (λ next.
        Consumes (R.remaining input.old) (R.remaining input.new) (option_to_list next)) }
    ensures end { IfOk result (λ next. IfNone next (IsAtEnd (R.remaining input.new))) }
{
    let mut byte = [0u8];
    // A counted loop, since nothing says that the signals end.
    for _ in 0..u64::MAX {
        match input.read(&mut byte) {
            Err(e) if e.kind() == ErrorKind::Interrupted => {}
            read => return Ok((read? > 0).then_some(byte[0])),
        }
    }
    Err(io::Error::from(ErrorKind::TimedOut))
}
