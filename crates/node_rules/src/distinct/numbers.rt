ghost use Rattle.std.specs.Prelude.{◌≡◌, ℤ, List, [], ◌∷◌, MatchOption};

/// Numbers that are read from the front. A copy reads the same numbers again.
pub trait Numbers: Copy {
    ghost left: { Self → List ℤ };

    /// Takes the first number; None where none is left.
    fn take_first(&mut self) -> Option<i64>
        ensures { MatchOption result ((left self.old ≡ []) × (left self.new ≡ [])) (λ n. left self.old ≡ n ∷ left self.new) };
}
