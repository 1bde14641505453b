// Variables that are found by their identifiers.
ghost use Rattle.std.specs.Prelude.{◌≡◌, ◌++◌, ◌∷◌, [], length, OnOk};
ghost use Rattle.cp_language.specs.Words.{is_one_of};
ghost use Rattle.cp_language.specs.Names.{identifiers_in};
ghost use Rattle.cp_language.specs.Terms.{variable_named};
ghost use Rattle.cp_language.specs.Problems.{is_known};

use crate::sorts::variable_named;
use cp_model::Variable;
use cp_strand::Declaration;
use std::alloc::{AllocError, Global};
use std::collections::HashMap;
use std::marker::Model;

/// From so many variables on the table is faster than a look at each.
const MANY: usize = 16;

/// Variables, found by their identifiers. The number of a variable is its place, from 0.
#[derive(Drop)]
pub struct Variables {
    declarations: Vec<Declaration>,
    table: HashMap<Vec<u8>, Variable>,
}

impl Model for Variables {
    ghost use Rattle.std.specs.Prelude.{List};
    ghost use Rattle.cp_model.specs.declared.variable.Declaration.{Declaration};
    ghost use Rattle.cp_scope.specs.Tables.{AreVariablesOf};

    ghost Value = { List Declaration };

    ghost view = { λ v. v.declarations.items };

    ghost invariant = { λ v. AreVariablesOf v.declarations.items v.table };
}

impl Variables {
    /// No variables.
    pub fn new(alloc: Global) -> Variables
        ensures { result ≡ [] }
    {
        Variables {
            declarations: Vec::new(alloc),
            table: HashMap::new(alloc),
        }
    }

    /// How many variables there are.
    pub fn len(&self) -> usize
        ensures { result ≡ length self.now }
    {
        self.declarations.len()
    }

    /// Their declarations, in order.
    pub fn as_slice(&self) -> &[Declaration]
        ensures { result.now ≡ self.now }
    {
        self.declarations.as_slice()
    }

    /// Their declarations alone.
    pub fn into_declarations(self) -> Vec<Declaration>
        ensures { result.items ≡ self }
    {
        self.declarations
    }

    /// The variable with this identifier; of several the first.
    pub fn named(&self, identifier: &[u8]) -> Option<Variable>
        ensures { result ≡ variable_named self.now identifier.now }
    {
        if self.declarations.len() < MANY {
            return variable_named(&self.declarations, identifier);
        }
        match self.table.get(identifier) {
            Some(variable) => Some(*variable),
            None => None,
        }
    }

    /// Whether one of them has this identifier.
    pub fn has(&self, identifier: &[u8]) -> bool
        ensures { result ≡ is_known (variable_named self.now identifier.now) }
    {
        match self.named(identifier) {
            Some(_) => true,
            None => false,
        }
    }

    /// Whether one of them is declared by this identifier.
    pub fn declares(&self, identifier: &[u8]) -> bool
        ensures { result ≡ is_one_of identifier.now (identifiers_in self.now) }
    {
        self.has(identifier)
    }

    /// Declares a variable after the others.
    pub fn push(&mut self, alloc: Global, declaration: Declaration) -> Result<(), AllocError>
        ensures { OnOk result (self.new ≡ self.old ++ declaration ∷ []) }
    {
        let key = Vec::from_slice(alloc, declaration.identifier.as_str().as_bytes())?;
        let known = self.table.contains_key(key.as_slice());
        let number = self.declarations.len();
        let variable = Variable {
            sort: declaration.sort,
            number,
        };
        self.declarations.push(declaration)?;
        if known {
            return Ok(());
        }
        if self.table.insert(key, variable).is_err() {
            self.declarations.truncate(number);
            return Err(AllocError);
        }
        Ok(())
    }
}
