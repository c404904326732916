//! The run that the settings ask for.
ghost use Rattle.std.specs.Prelude.{◌≡◌};
ghost use Rattle.book.specs.Choices.{Bare, ComesTo, WithDepth, WithMemory, RunBy, records_in};
ghost use Rattle.book.specs.Settings.{entries_of};

use crate::codes::{ItemKind, MemoryKind};
use crate::settings::Settings;
use memory::{Buffer, Loose, Memory, Prompt};
use run::{Ran, Record, RunFault, Tally, run};
use words::{Edit, Kind, Reading};

/// The log of a run: a place for each of its records. An array, since there is no heap here.
pub(crate) type Log = [Record; 1024];

/// What a book asks for: a run by these settings, of these words and moves.
#[derive(Clone, Copy)]
pub(crate) struct Asked<'a> {
    pub(crate) settings: Settings,
    pub(crate) words: &'a [u64],
    pub(crate) moves: &'a [u8],
}

impl Asked<'_> {
    fn run_on<K: Kind, M: Memory + Drop>(&self, memory: M, log: &mut Log) -> Result<Tally, RunFault>
        ensures { ComesTo M.Memory K.Kind (λ x. x ≡ memory) self.now.settings.rings self.now.settings.cells self.now.words.now self.now.moves.now result (records_in result log.new) }
    {
        let Ran { memory: _, tally } = run::<K, M>(
            memory,
            self.settings.rings,
            self.settings.cells,
            self.words,
            self.moves,
            log,
        )?;
        Ok(tally)
    }

    // On the memory itself, or on a buffer above it.
    fn with_depth<K: Kind, M: Memory + Drop>(
        &self,
        memory: M,
        log: &mut Log,
    ) -> Result<Tally, RunFault>
        requires { Bare M.Memory memory }
        ensures { WithDepth M.Memory K.Kind (entries_of self.now.settings.depth) self.now.settings.rings self.now.settings.cells self.now.words.now self.now.moves.now result (records_in result log.new) }
    {
        let Some(depth) = self.settings.depth else {
            return self.run_on::<K, M>(memory, log);
        };
        let Ok(buffer) = Buffer::new(memory, depth.entries as usize) else {
            unreachable!()
        };
        self.run_on::<K, Buffer<M>>(buffer, log)
    }

    // Each memory is a type of its own in the contract, which a trait object would hide.
    fn with_memory<K: Kind>(&self, log: &mut Log) -> Result<Tally, RunFault>
        ensures { WithMemory K.Kind self.now.settings.memory (entries_of self.now.settings.depth) self.now.settings.rings self.now.settings.cells self.now.words.now self.now.moves.now result (records_in result log.new) }
    {
        let mut landed = [0u64; 529];
        match self.settings.memory {
            MemoryKind::Prompt => {
                self.with_depth::<K, Prompt<'_>>(Prompt::new(&mut landed), log)
            }
            MemoryKind::Loose => self.with_depth::<K, Loose<'_>>(Loose::new(&mut landed), log),
        }
    }

    /// Makes the run on a memory of 529 bare words.
    pub(crate) fn run(&self, log: &mut Log) -> Result<Tally, RunFault>
        ensures { RunBy self.now.settings self.now.words.now self.now.moves.now result (records_in result log.new) }
    {
        match self.settings.kind {
            ItemKind::Edit => self.with_memory::<Edit>(log),
            ItemKind::Reading => self.with_memory::<Reading>(log),
        }
    }
}
