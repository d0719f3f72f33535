ghost use Rattle.std.specs.Prelude.{◌≡◌, [], ◌∷◌, ◌++◌, ◌<◌, length, slice_get, Some};
ghost use Rattle.arrayvec.specs.ArrayVec.{array_vec_len};
ghost use Rattle.type_trees.specs.Paths.{path_text};

use arrayvec::ArrayVec;
use std::fmt;
use std::marker::Model;
use xt_shapes::Step;

/// The steps from a type or value to a part of it, at most 16.
#[derive(Debug, Drop)]
pub struct Path {
    steps: ArrayVec<Step, 16>,
}

impl Model for Path {
    ghost use Rattle.std.specs.Prelude.{List};
    ghost use Rattle.xt_shapes.specs.declared.leaves.Step.{Step};

    ghost Value = { List Step };

    ghost view = { λ path. path.steps.items };
}

impl Path {
    /// The path of the whole.
    pub fn empty() -> Path
        ensures { result ≡ [] }
    {
        Path {
            steps: ArrayVec::new(),
        }
    }

    /// The number of steps.
    pub fn len(&self) -> usize
        ensures { result ≡ length self.now }
    {
        self.steps.len()
    }

    /// The step at `index`.
    pub fn at(&self, index: usize) -> Step
        requires { index < length self.now }
        ensures { slice_get self.now index ≡ Some result }
    {
        self.steps[index]
    }

    /// Puts a step behind the others.
    pub fn push(&mut self, step: Step)
        requires { length self.old < 16 }
        ensures { self.new ≡ self.old ++ step ∷ [] }
    {
        self.steps.push(step);
    }

    /// Puts a step before the others.
    pub fn push_front(&mut self, step: Step)
        requires { length self.old < 16 }
        ensures { self.new ≡ step ∷ self.old }
    {
        self.steps.insert(0, step);
    }
}

/// `/` for the whole, else each step behind a `/`.
impl fmt::Display for Path {
    ghost output = { λ path. Some (path_text path) };

    fn fmt<W: fmt::Write>(&self, f: &mut fmt::Formatter<W>) -> fmt::Result {
        if self.steps.is_empty() {
            return f.write_str("/");
        }
        for step in self.steps.as_slice() {
            write!(f, "/{step}")?;
        }
        Ok(())
    }
}
