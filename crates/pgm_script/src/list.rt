// What the lines of a script are kept as.
ghost use Rattle.std.specs.Prelude.{◌≡◌, ◌++◌, ◌∷◌, [], List, OnOk, map};
ghost use Rattle.pgm_script.specs.declared.script.ScriptLine.{ScriptLine};
ghost use Rattle.pgm_script.specs.declared.script.ScriptKind.{ScriptKind};
ghost use Rattle.pgm_script.specs.Scripts.{IsLineOf};

use crate::{ScriptKind, ScriptLine};
use std::alloc::{AllocError, Global};

/// A list that the lines of a script are kept as.
pub trait LineList: Drop {
    /// The lines in it.
    ghost lines: { Self → List ScriptLine };

    /// The kinds whose lines it takes.
    ghost takes: { ScriptKind → Type 0 };

    /// An empty list. Takes no memory.
    fn empty(alloc: Global) -> Self
        ensures { lines result ≡ [] };

    /// Puts a line behind the others. The only error is want of memory.
    fn put(&mut self, line: ScriptLine) -> Result<(), AllocError>
        requires { (kind : ScriptKind) × takes kind × IsLineOf kind line }
        ensures { OnOk result (lines self.new ≡ lines self.old ++ line ∷ []) };
}

impl LineList for Vec<ScriptLine> {
    ghost lines = { λ list. list.items };

    ghost takes = { λ _. Unit {0} };

    #[inline]
    fn empty(alloc: Global) -> Self {
        Vec::new(alloc)
    }

    #[inline]
    fn put(&mut self, line: ScriptLine) -> Result<(), AllocError> {
        self.push(line)?;
        Ok(())
    }
}

/// The lines of a script of the kind `Find`, kept as their numbers: 8 bytes a line.
#[derive(Drop)]
pub struct Finds {
    /// The numbers, in the lines' order.
    pub numbers: Vec<u64>,
}

impl LineList for Finds {
    ghost use Rattle.pgm_script.specs.declared.script.ScriptLine.TheVariants.{Find};

    ghost lines = { λ finds. map Find finds.numbers.items };

    ghost takes = { λ kind. kind ≡ ScriptKind.Find };

    #[inline]
    fn empty(alloc: Global) -> Self {
        let numbers = Vec::new(alloc);
        Finds { numbers }
    }

    #[inline]
    fn put(&mut self, line: ScriptLine) -> Result<(), AllocError> {
        match line {
            ScriptLine::Find(number) => {
                self.numbers.push(number)?;
                Ok(())
            }
            _ => unreachable!(),
        }
    }
}
