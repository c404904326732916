//! How a memory shows what waits in it.
use memory::{Buffer, Entry, Loose, Memory, Prompt, Side, Waits};
use std::fmt;

/// A memory that can be looked into.
pub trait Show: Memory {
    fn landed(&self) -> &[u64];

    // what of the side waits, oldest first; `|` is a bar, and ` /` parts what waits below from a buffer's own entries
    fn write_line<W: fmt::Write>(&self, side: Side, f: &mut fmt::Formatter<W>) -> fmt::Result;
}

impl Show for Prompt<'_> {
    fn landed(&self) -> &[u64] {
        self.words()
    }

    fn write_line<W: fmt::Write>(&self, _side: Side, _f: &mut fmt::Formatter<W>) -> fmt::Result {
        Ok(())
    }
}

fn write_waits<W: fmt::Write>(waits: Waits<'_>, f: &mut fmt::Formatter<W>) -> fmt::Result {
    for (at, store) in waits.stores.iter().enumerate() {
        // a bar before the first holds nothing back
        if store.barred && at > 0 {
            write!(f, " |")?;
        }
        let address = store.address;
        let word = store.word;
        write!(f, " {address}={word}")?;
    }
    if waits.fenced && !waits.stores.is_empty() {
        write!(f, " |")?;
    }
    Ok(())
}

impl Show for Loose<'_> {
    fn landed(&self) -> &[u64] {
        self.words()
    }

    fn write_line<W: fmt::Write>(&self, side: Side, f: &mut fmt::Formatter<W>) -> fmt::Result {
        write_waits(self.waiting(side), f)
    }
}

fn write_entries<W: fmt::Write>(entries: &[Entry], f: &mut fmt::Formatter<W>) -> fmt::Result {
    for kept in entries {
        match *kept {
            Entry::Store { address, word } => write!(f, " {address}={word}")?,
            Entry::Bar => write!(f, " |")?,
        }
    }
    Ok(())
}

impl<M: Show> Show for Buffer<M> {
    fn landed(&self) -> &[u64] {
        self.below().landed()
    }

    fn write_line<W: fmt::Write>(&self, side: Side, f: &mut fmt::Formatter<W>) -> fmt::Result {
        self.below().write_line(side, f)?;
        write!(f, " /")?;
        write_entries(self.entries(side), f)
    }
}

/// The line of one side, as text.
#[derive(Drop)]
pub struct LineOf<'a, M: Show> {
    pub memory: &'a M,
    pub side: Side,
}

impl<M: Show> fmt::Display for LineOf<'_, M> {
    fn fmt<W: fmt::Write>(&self, f: &mut fmt::Formatter<W>) -> fmt::Result {
        self.memory.write_line(self.side, f)
    }
}

/// The words that changed, as text.
#[derive(Drop)]
pub struct Changes<'a, 'b> {
    pub before: &'a [u64],
    pub now: &'b [u64],
}

impl fmt::Display for Changes<'_, '_> {
    fn fmt<W: fmt::Write>(&self, f: &mut fmt::Formatter<W>) -> fmt::Result {
        for (at, word) in self.now.iter().enumerate() {
            if self.before.get(at) != Some(word) {
                write!(f, " {at}={word}")?;
            }
        }
        Ok(())
    }
}
