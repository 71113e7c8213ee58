//! Which predefined names an item uses, and what they change with.

ghost use Rattle.std.specs.Prelude.{◌≡◌, ◌++◌, ◌∷◌, ◌||◌, [], false, OnOk, IsTrue, Contains};
ghost use Rattle.predefined_names.specs.declared.predefined.Predefined.{Predefined};
ghost use Rattle.cat_eval.specs.Needs.{AreSuited, is_changing_name};
ghost use Rattle.cat_eval.specs.Needed.{changes_with_reads, changes_with_orders, step_passes, steps_read, steps_order, bodies_read, bodies_order, role_reads, role_orders, step_names, predefined_names_in, bodies_names, role_names, ListsNeeded};

use binding_graph::{Body, ResolvedItem, Role, Source, Step};
use std::alloc::{AllocError, Global};
use text_values::Predefined;

/// What an item needs to know of a candidate.
#[derive(Drop)]
pub(crate) struct Needs {
    /// The predefined names that it uses, each once.
    pub(crate) names: Vec<Predefined>,
    /// Whether one of them changes with the stores that the loads read.
    pub(crate) reads: bool,
    /// Whether one of them changes with the order of the stores.
    pub(crate) orders: bool,
}

/// Whether a name changes with the stores that the loads read.
fn changes_with_reads(name: Predefined) -> bool
    ensures { result ≡ changes_with_reads name }
{
    matches!(
        name,
        Predefined::ReadsFrom
            | Predefined::ReadsFromExternal
            | Predefined::ReadsFromInternal
            | Predefined::FromReads
            | Predefined::FromReadsExternal
            | Predefined::FromReadsInternal
            | Predefined::Communication
    )
}

/// Whether a name changes with the order of the stores.
pub(crate) fn changes_with_orders(name: Predefined) -> bool
    ensures { result ≡ changes_with_orders name }
{
    matches!(
        name,
        Predefined::Coherence
            | Predefined::CoherenceExternal
            | Predefined::CoherenceInternal
            | Predefined::FromReads
            | Predefined::FromReadsExternal
            | Predefined::FromReadsInternal
            | Predefined::Communication
    )
}

/// Whether a name is in a list.
fn is_listed(names: &[Predefined], name: Predefined) -> bool
    ensures { IsTrue result → Contains names.now name }
{
    names.contains(&name)
}

impl Needs {
    /// No need.
    pub(crate) fn none(alloc: Global) -> Needs
        ensures names { result.names.items ≡ [] }
        ensures suited { AreSuited result.names.items result.reads result.orders }
    {
        Needs {
            names: Vec::new(alloc),
            reads: false,
            orders: false,
        }
    }

    /// Whether a name changes with reads-from or coherence.
    pub(crate) fn is_changing(name: Predefined) -> bool
        ensures { result ≡ is_changing_name name }
    {
        changes_with_reads(name) || changes_with_orders(name)
    }

    /// Makes these the needs of an item alone, in the memory of those before.
    pub(crate) fn replace_by(&mut self, item: &ResolvedItem) -> Result<(), AllocError>
        ensures changes { OnOk result ((self.new.reads ≡ role_reads item.now.role)
            × (self.new.orders ≡ role_orders item.now.role)) }
        ensures names { OnOk result (ListsNeeded self.new.names.items (role_names item.now.role)) }
    {
        self.clear();
        self.add_item(item)?;
        Ok(())
    }

    /// Takes all needs away.
    pub(crate) fn clear(&mut self)
        ensures names { self.new.names.items ≡ [] }
        ensures changes { (self.new.reads ≡ false) × (self.new.orders ≡ false) }
    {
        self.names.clear();
        self.reads = false;
        self.orders = false;
    }

    /// Adds what an item needs.
    pub(crate) fn add_item(&mut self, item: &ResolvedItem) -> Result<(), AllocError>
        ensures changes { OnOk result ((self.new.reads
            ≡ (self.old.reads || role_reads item.now.role))
            × (self.new.orders ≡ (self.old.orders || role_orders item.now.role))) }
        ensures names { OnOk result (ListsNeeded self.new.names.items
            (self.old.names.items ++ role_names item.now.role)) }
    {
        match &item.role {
            Role::Group { bodies, .. } => self.add_bodies(bodies),
            Role::Check(check) => self.add_all(&check.code.steps),
            Role::Silent => Ok(()),
        }
    }

    /// Adds what the bodies of a group need.
    fn add_bodies(&mut self, bodies: &[Body]) -> Result<(), AllocError>
        ensures changes { OnOk result ((self.new.reads ≡ (self.old.reads || bodies_read bodies.now))
            × (self.new.orders ≡ (self.old.orders || bodies_order bodies.now))) }
        ensures names { OnOk result (ListsNeeded self.new.names.items
            (self.old.names.items ++ bodies_names bodies.now)) }
    {
        for body in bodies {
            self.add_all(&body.code.steps)?;
        }
        Ok(())
    }

    /// Adds what the steps need.
    fn add_all(&mut self, steps: &[Step]) -> Result<(), AllocError>
        ensures changes { OnOk result ((self.new.reads ≡ (self.old.reads || steps_read steps.now))
            × (self.new.orders ≡ (self.old.orders || steps_order steps.now))) }
        ensures names { OnOk result (ListsNeeded self.new.names.items
            (self.old.names.items ++ predefined_names_in steps.now)) }
    {
        for step in steps {
            self.add_step(*step)?;
        }
        Ok(())
    }

    /// Adds what one step needs.
    fn add_step(&mut self, step: Step) -> Result<(), AllocError>
        ensures changes { OnOk result ((self.new.reads
            ≡ (self.old.reads || step_passes changes_with_reads step))
            × (self.new.orders ≡ (self.old.orders || step_passes changes_with_orders step))) }
        ensures names { OnOk result (ListsNeeded self.new.names.items
            (self.old.names.items ++ step_names step)) }
    {
        match step {
            Step::PushSet(source) | Step::PushRelation(source) => match source {
                Source::Predefined(name) => self.add(name),
                Source::Input(_) | Source::Own(_) => Ok(()),
            },
            _ => Ok(()),
        }
    }

    /// Adds a name.
    pub(crate) fn add(&mut self, name: Predefined) -> Result<(), AllocError>
        ensures changes { OnOk result ((self.new.reads
            ≡ (self.old.reads || changes_with_reads name))
            × (self.new.orders ≡ (self.old.orders || changes_with_orders name))) }
        ensures names { OnOk result (ListsNeeded self.new.names.items
            (self.old.names.items ++ (name ∷ []))) }
        ensures suited { AreSuited self.old.names.items self.old.reads self.old.orders
            → AreSuited self.new.names.items self.new.reads self.new.orders }
    {
        self.note(name);
        self.list(name)?;
        Ok(())
    }

    /// Notes what a name changes with.
    fn note(&mut self, name: Predefined)
        ensures names { self.new.names ≡ self.old.names }
        ensures reads { self.new.reads ≡ (self.old.reads || changes_with_reads name) }
        ensures orders { self.new.orders ≡ (self.old.orders || changes_with_orders name) }
    {
        self.reads = self.reads || changes_with_reads(name);
        self.orders = self.orders || changes_with_orders(name);
    }

    /// Adds a name to the list, if it is not there.
    fn list(&mut self, name: Predefined) -> Result<(), AllocError>
        ensures fixed { (self.new.reads ≡ self.old.reads) × (self.new.orders ≡ self.old.orders) }
        ensures listed { OnOk result (ListsNeeded self.new.names.items
            (self.old.names.items ++ (name ∷ []))) }
        ensures within { ListsNeeded (self.old.names.items ++ (name ∷ [])) self.new.names.items }
    {
        if is_listed(&self.names, name) {
            return Ok(());
        }
        self.names.push(name)?;
        Ok(())
    }
}
