ghost use Rattle.std.specs.Prelude.{◌≡◌, Ok, IfOk};
ghost use Rattle.serde_json.specs.View.{view};
ghost use Rattle.kts_base.specs.Reads.{Gives, and_then};
ghost use Rattle.kts_data.specs.Drafts.{instance_in, IsThere};
ghost use Rattle.kts_data.specs.Faults.{IsNoMemory};
ghost use Rattle.kts_data.specs.Instances.{empty_instance, members_of, table_of, with_members, with_values, with_declaration};
ghost use Rattle.kts_data.specs.Json.{value_under};

use crate::fault::DataFault;
use crate::lookup::find;
use crate::members::members_of;
use crate::roster::Roster;
use crate::values::table_of;
use kts_base::{List, Name, NoMemory};
use kts_spec::{Decl, Family, Instance, Schema};
use serde_json::Value;
use std::alloc::Global;

/// An instance as far as it is read: the members of each index and the values of each given so far.
#[derive(Drop)]
pub struct Draft {
    members: List<Roster>,
    values: List<List<i64>>,
}

impl Draft {
    pub fn new(alloc: Global) -> Draft
        ensures { instance_in result ≡ empty_instance }
    {
        Draft {
            members: List::new(alloc),
            values: List::new(alloc),
        }
    }

    /// Takes what an object says of one declaration more.
    #[tactic(auto, unfolding(crate::specs::Instances::with_declaration))]
    pub fn take(
        &mut self,
        alloc: Global,
        schema: &Schema,
        value: &Value,
        decl: Decl,
    ) -> Result<(), DataFault>
        requires { IsThere schema.now decl }
        ensures { Gives IsNoMemory (λ _. instance_in self.new) result (with_declaration schema.now (view value.now) (instance_in self.old) decl) }
    {
        match decl {
            Decl::Index(i) => {
                let index = &schema.indexes().as_slice()[i as usize];
                self.take_members(alloc, index, value)
            }
            Decl::Given(f) => {
                let family = &schema.givens().as_slice()[f as usize];
                self.take_values(alloc, family, value)
            }
            Decl::Choose(_) | Decl::Manifest(_) => Ok(()),
        }
    }

    fn take_members(&mut self, alloc: Global, index: &Name, value: &Value) -> Result<(), DataFault>
        ensures { Gives IsNoMemory (λ _. instance_in self.new) result
            (and_then (and_then (value_under index.now (view value.now)) (members_of index.now)) (λ names. Ok (with_members (instance_in self.old) names))) }
    {
        let found = find(value, index)?;
        let roster = members_of(alloc, index, found)?;
        self.members.push(roster)?;
        Ok(())
    }

    fn take_values(
        &mut self,
        alloc: Global,
        family: &Family,
        value: &Value,
    ) -> Result<(), DataFault>
        ensures { Gives IsNoMemory (λ _. instance_in self.new) result
            (and_then (and_then (value_under family.now.name (view value.now)) (table_of self.old.members family.now)) (λ values. Ok (with_values (instance_in self.old) values))) }
    {
        let found = find(value, &family.name())?;
        let table = table_of(alloc, self.members.as_slice(), family, found)?;
        self.values.push(table)?;
        Ok(())
    }

    /// The instance, whose members are their names.
    pub fn instance(self, alloc: Global) -> Result<Instance, NoMemory>
        ensures { IfOk result (λ inst. inst ≡ instance_in self) }
    {
        let members = names_of(alloc, self.members.as_slice())?;
        Ok(Instance::new(members, self.values))
    }
}

// The names of the members of each index.
fn names_of(alloc: Global, rosters: &[Roster]) -> Result<List<List<Name>>, NoMemory>
    ensures { IfOk result (λ names. names ≡ rosters.now) }
{
    let mut names = List::new(alloc);
    for roster in rosters {
        names.push(roster.names(alloc)?)?;
    }
    Ok(names)
}
