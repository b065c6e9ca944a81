ghost use Rattle.std.specs.Prelude.{◌≡◌};
ghost use Rattle.sat_cnf.specs.Lits.{variable_of, is_negated, negation_of};

/// A variable or its negation: variable v is `2v`, and its negation `2v + 1`.
#[derive(Clone, Copy, Debug, PartialEq, Eq)]
pub struct Lit(pub u32);

impl Lit {
    /// The number of its variable, from 0.
    pub fn variable(self) -> u32
        ensures { result ≡ variable_of self }
    {
        self.0 / 2
    }

    /// Whether it is the negation of its variable.
    pub fn is_negated(self) -> bool
        ensures { result ≡ is_negated self }
    {
        self.0 % 2 == 1
    }

    /// The literal of the same variable that is true exactly where this one is false.
    pub fn negation(self) -> Lit
        ensures { result ≡ negation_of self }
    {
        Lit(self.0 ^ 1)
    }
}
