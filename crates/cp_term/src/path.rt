// Paths to the parts of a term.
ghost use Rattle.std.specs.Prelude.{◌≡◌, [], ◌∷◌, ◌++◌, length, take, IfOk, OnOk, OnErr};

use cp_model::Step;
use smallvec::SmallVec;
use std::alloc::{AllocError, Global};
use std::marker::Model;

/// A path into a term. Contracts see its steps, the first one first.
pub struct Path {
    steps: SmallVec<Step, 8>,
}

impl Model for Path {
    ghost use Rattle.std.specs.Prelude.{List};
    ghost use Rattle.cp_model.specs.declared.step.Step.{Step as StepData};

    ghost Value = { List StepData };

    ghost view = { λ p. p.steps.items };
}

// A function of its own, so that whatever drops a path stays short.
impl Drop for Path {
    #[inline(never)]
    fn drop(self) {
        let Path { steps } = self;
        drop(steps);
    }
}

impl Path {
    /// The empty path.
    pub fn new(alloc: Global) -> Path
        ensures { result ≡ [] }
    {
        Path {
            steps: SmallVec::new(alloc),
        }
    }

    /// The path of these steps.
    pub fn from_slice(alloc: Global, steps: &[Step]) -> Result<Path, AllocError>
        ensures { IfOk result (λ p. p ≡ steps.now) }
    {
        SmallVec::from_slice(alloc, steps).map(|steps| Path { steps })
    }

    /// The steps.
    pub fn as_slice(&self) -> &[Step]
        ensures { result.now ≡ self.now }
    {
        self.steps.as_slice()
    }

    /// How many steps there are.
    pub fn len(&self) -> usize
        ensures { result ≡ length self.now }
    {
        self.steps.len()
    }

    /// Appends a step. On an error the path is unchanged.
    pub fn push(&mut self, step: Step) -> Result<(), AllocError>
        ensures ok { OnOk result (self.new ≡ self.old ++ step ∷ []) }
        ensures err { OnErr result (self.new ≡ self.old) }
    {
        self.steps.push(step).map_err(AllocError::from)
    }

    /// Keeps the first `len` steps.
    pub fn truncate(&mut self, len: usize)
        ensures { self.new ≡ take len self.old }
    {
        self.steps.truncate(len);
    }

    /// The same path.
    pub fn copy(&self) -> Result<Path, AllocError>
        ensures { IfOk result (λ p. p ≡ self.now) }
    {
        Path::from_slice(*self.steps.allocator(), self.as_slice())
    }
}
