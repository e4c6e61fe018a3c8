ghost use Rattle.std.specs.Prelude.{◌≡◌, true, IfOk};
ghost use Rattle.kts_spec.specs.Schemas.{is_schema};

use crate::declarations::{Decl, Family};
use crate::list_copies::{copy_families, copy_lists};
use kts_base::{List, Name, NoMemory};
use std::alloc::Global;

/// The declarations of a specification. `decls` has their order in the file, and `tasks` the
/// indexes of the variables of each constraint.
#[derive(Debug, Drop)]
pub struct Schema {
    name: Name,
    decls: List<Decl>,
    indexes: List<Name>,
    givens: List<Family>,
    choices: List<Family>,
    tasks: List<List<u32>>,
    ghost is_schema: { is_schema name decls indexes givens choices tasks ≡ true },
}

impl Schema {
    pub fn new(
        name: Name,
        decls: List<Decl>,
        indexes: List<Name>,
        givens: List<Family>,
        choices: List<Family>,
        tasks: List<List<u32>>,
    ) -> Schema
        requires { is_schema name decls indexes givens choices tasks ≡ true }
        ensures name { result.name ≡ name }
        ensures decls { result.decls ≡ decls }
        ensures indexes { result.indexes ≡ indexes }
        ensures givens { result.givens ≡ givens }
        ensures choices { result.choices ≡ choices }
        ensures tasks { result.tasks ≡ tasks }
    {
        Schema {
            name,
            decls,
            indexes,
            givens,
            choices,
            tasks,
        }
    }

    pub fn name(&self) -> Name
        ensures { result ≡ self.now.name }
    {
        self.name
    }

    pub fn decls(&self) -> &List<Decl>
        ensures { result.now ≡ self.now.decls }
    {
        &self.decls
    }

    pub fn indexes(&self) -> &List<Name>
        ensures { result.now ≡ self.now.indexes }
    {
        &self.indexes
    }

    pub fn givens(&self) -> &List<Family>
        ensures { result.now ≡ self.now.givens }
    {
        &self.givens
    }

    pub fn choices(&self) -> &List<Family>
        ensures { result.now ≡ self.now.choices }
    {
        &self.choices
    }

    pub fn tasks(&self) -> &List<List<u32>>
        ensures { result.now ≡ self.now.tasks }
    {
        &self.tasks
    }

    /// An equal schema.
    pub fn copy(&self, alloc: Global) -> Result<Schema, NoMemory>
        ensures { IfOk result (λ copy. copy ≡ self.now) }
    {
        let decls = List::from_slice(alloc, self.decls.as_slice())?;
        let indexes = List::from_slice(alloc, self.indexes.as_slice())?;
        let givens = copy_families(alloc, self.givens.as_slice())?;
        let choices = copy_families(alloc, self.choices.as_slice())?;
        let tasks = copy_lists(alloc, self.tasks.as_slice())?;
        Ok(Schema {
            name: self.name,
            decls,
            indexes,
            givens,
            choices,
            tasks,
        })
    }
}
