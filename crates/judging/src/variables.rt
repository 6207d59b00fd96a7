// Whether the variables of expressions are there.
ghost use Rattle.judging.specs.Judging.{Behind, NotBefore, VariablesSay, AllVariablesSay};

use crate::setting::Setting;
use rows::decode::{Term, term_at};

impl Setting<'_> {
    // The place behind the expression at a place, if all its variables are there.
    pub(crate) fn variables_there(&self, at: usize, depth: u32) -> Option<usize>
        ensures behind { Behind self.now.rows.words.now at result }
        ensures says { VariablesSay self.now.rows.words.now at depth self.now.variables result }
    {
        if depth == 0 {
            return None;
        }
        match term_at(self.rows.words, at)? {
            Term::Number(_) => Some(at + 2),
            Term::Variable(x) => (x < self.variables).then_some(at + 2),
            Term::Pair { first, .. } => {
                let second = self.variables_there(first, depth - 1)?;
                self.variables_there(second, depth - 1)
            }
        }
    }

    // The place behind so many expressions one after the other from a place on, if all their variables are there.
    pub(crate) fn all_variables_there(&self, at: usize, count: u32, depth: u32) -> Option<usize>
        ensures behind { NotBefore self.now.rows.words.now at result }
        ensures says { AllVariablesSay self.now.rows.words.now at depth self.now.variables count result }
    {
        let mut here = at;
        for _ in 0..count {
            here = self.variables_there(here, depth)?;
        }
        Some(here)
    }
}
