ghost use Rattle.std.specs.Prelude.{◌≡◌, ◌∷◌, ◌++◌, [], None, OnOk, IfErr};
ghost use Rattle.kts_check.specs.Faults.{IsNoMemory};
ghost use Rattle.kts_check.specs.Declarations.{entry_of, no_declarations};
ghost use Rattle.kts_check.specs.Forms.{declarations_in, with_declaration, IsNew, IsFew};

use crate::declaration::Declaration;
use crate::entry::Entry;
use crate::fault::{SpecFault, SpecKind};
use indexmap::IndexMap;
use kts_base::{List, Name, fail};
use kts_spec::{Decl, Family, Formula};
use std::alloc::Global;

/// What is declared after some forms.
#[derive(Drop)]
pub struct SymbolTable {
    pub names: IndexMap<Name, Entry>,
    pub decls: List<Decl>,
    pub indexes: List<Name>,
    pub givens: List<Family>,
    pub choices: List<Family>,
    pub formulas: List<(Name, Formula)>,
}

impl SymbolTable {
    pub fn new(alloc: Global) -> SymbolTable
        ensures { declarations_in result ≡ no_declarations }
    {
        SymbolTable {
            names: IndexMap::new(alloc),
            decls: List::new(alloc),
            indexes: List::new(alloc),
            givens: List::new(alloc),
            choices: List::new(alloc),
            formulas: List::new(alloc),
        }
    }

    /// Gives a name to what is declared next.
    fn name(&mut self, name: Name, entry: Entry) -> Result<(), SpecFault>
        requires { entry_of self.old.names.entries name ≡ None }
        ensures ok { OnOk result (declarations_in self.new ≡ record (declarations_in self.old) { names = (declarations_in self.old).names ++ (name, entry) ∷ [] }) }
        ensures err { IfErr result IsNoMemory }
    {
        match self.names.insert(name, entry) {
            Ok(_) => Ok(()),
            Err(_) => fail(SpecKind::NoMemory, 0),
        }
    }

    #[tactic(auto, unfolding(crate::specs::Forms::with_declaration))]
    fn add_index(&mut self, name: Name) -> Result<(), SpecFault>
        requires new { IsNew (declarations_in self.old) (Declaration.Index name) }
        requires few { IsFew (declarations_in self.old) }
        ensures ok { OnOk result (declarations_in self.new ≡ with_declaration (declarations_in self.old) (Declaration.Index name)) }
        ensures err { IfErr result IsNoMemory }
    {
        let i = self.indexes.len() as u32;
        self.name(name, Entry::Index(i))?;
        self.decls.push(Decl::Index(i))?;
        self.indexes.push(name)?;
        Ok(())
    }

    #[tactic(auto, unfolding(crate::specs::Forms::with_declaration))]
    fn add_given(&mut self, family: Family) -> Result<(), SpecFault>
        requires new { IsNew (declarations_in self.old) (Declaration.Given family) }
        requires few { IsFew (declarations_in self.old) }
        ensures ok { OnOk result (declarations_in self.new ≡ with_declaration (declarations_in self.old) (Declaration.Given family)) }
        ensures err { IfErr result IsNoMemory }
    {
        let f = self.givens.len() as u32;
        self.name(family.name(), Entry::Given(f))?;
        self.decls.push(Decl::Given(f))?;
        self.givens.push(family)?;
        Ok(())
    }

    #[tactic(auto, unfolding(crate::specs::Forms::with_declaration))]
    fn add_choice(&mut self, family: Family) -> Result<(), SpecFault>
        requires new { IsNew (declarations_in self.old) (Declaration.Choice family) }
        requires few { IsFew (declarations_in self.old) }
        ensures ok { OnOk result (declarations_in self.new ≡ with_declaration (declarations_in self.old) (Declaration.Choice family)) }
        ensures err { IfErr result IsNoMemory }
    {
        let x = self.choices.len() as u32;
        self.name(family.name(), Entry::Choice(x))?;
        self.decls.push(Decl::Choose(x))?;
        self.choices.push(family)?;
        Ok(())
    }

    #[tactic(auto, unfolding(crate::specs::Forms::with_declaration))]
    fn add_formula(&mut self, name: Name, formula: Formula) -> Result<(), SpecFault>
        requires { IsNew (declarations_in self.old) (Declaration.Formula name formula) }
        ensures ok { OnOk result (declarations_in self.new ≡ with_declaration (declarations_in self.old) (Declaration.Formula name formula)) }
        ensures err { IfErr result IsNoMemory }
    {
        self.name(name, Entry::Formula)?;
        self.formulas.push((name, formula))?;
        Ok(())
    }

    /// Adds the declaration of one form more.
    #[tactic(auto, unfolding(crate::specs::Forms::with_declaration))]
    pub fn add(&mut self, declaration: Declaration) -> Result<(), SpecFault>
        requires new { IsNew (declarations_in self.old) declaration }
        requires few { IsFew (declarations_in self.old) }
        ensures ok { OnOk result (declarations_in self.new ≡ with_declaration (declarations_in self.old) declaration) }
        ensures err { IfErr result IsNoMemory }
    {
        match declaration {
            Declaration::Index(name) => self.add_index(name),
            Declaration::Given(family) => self.add_given(family),
            Declaration::Choice(family) => self.add_choice(family),
            Declaration::Formula(name, formula) => self.add_formula(name, formula),
            Declaration::Manifest(x) => {
                self.decls.push(Decl::Manifest(x))?;
                Ok(())
            }
        }
    }
}
