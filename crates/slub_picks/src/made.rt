//! The turns that were made, and the part that says them.

ghost use Rattle.std.specs.Prelude.{◌≡◌, ℕ, ◌++◌, ◌∷◌, [], List, IfOk, OnOk, string_bytes};
ghost use Rattle.slub_picks.specs.Made.{IsMade, part_text, run_text, runs_of};

use slub_common::no_memory::NoMemory;
use std::alloc::Global;

/// Turns of one worker in a row.
#[derive(Clone, Copy, Debug, PartialEq, Eq)]
pub struct Run {
    pub worker: usize,
    /// How many, at least one.
    pub count: u32,
}

/// The turns of a round that were made.
#[derive(Debug, Drop)]
pub struct Made {
    runs: Vec<Run>,
}

/// The text of a run: the worker, and behind `:` how many turns, where they are several.
fn run_text(alloc: Global, run: Run) -> Result<String, NoMemory>
    ensures { IfOk result (λ text. string_bytes text ≡ run_text run) }
{
    let Run { worker, count } = run;
    if count == 1 {
        return Ok(format!(in alloc; "{worker}")?);
    }
    Ok(format!(in alloc; "{worker}:{count}")?)
}

impl Made {
    /// No turn.
    pub fn new(alloc: Global) -> Made
        ensures { IsMade result [] }
    {
        Made {
            runs: Vec::new(alloc),
        }
    }

    /// One more turn, of this worker.
    pub fn push(&mut self, worker: usize) -> Result<(), NoMemory>
        ensures { OnOk result ((turns : List ℕ)
            → IsMade self.old turns → IsMade self.new (turns ++ worker ∷ [])) }
    {
        let one = Run { worker, count: 1 };
        let Some(run) = self.runs.pop() else {
            self.runs.push(one)?;
            return Ok(());
        };
        if run.worker == worker && run.count < u32::MAX {
            let count = run.count + 1;
            self.runs.push(Run { worker, count })?;
            return Ok(());
        }
        self.runs.push(run)?;
        self.runs.push(one)?;
        Ok(())
    }

    /// Puts the part that says the turns behind a text, in its shortest form.
    pub fn push_part(&self, alloc: Global, text: &mut Vec<u8>) -> Result<(), NoMemory>
        ensures { OnOk result (text.new.items ≡ text.old.items ++ part_text (runs_of self.now)) }
    {
        let Some((first, others)) = self.runs.split_first() else {
            text.extend_from_slice(b"0:end")?;
            return Ok(());
        };
        let entry = run_text(alloc, *first)?;
        text.extend_from_slice(entry.as_bytes())?;
        for run in others {
            let entry = run_text(alloc, *run)?;
            text.push(b',')?;
            text.extend_from_slice(entry.as_bytes())?;
        }
        Ok(())
    }
}
