//! Lists of faults.

ghost use Rattle.std.specs.Prelude.{◌≡◌, OnOk, filter};
ghost use Rattle.std.specs.List.{list_any};
ghost use Rattle.meaning.specs.Faults as definition;
ghost use Rattle.plain_faults.specs.Found.{fault_as, faults_as, Adds};

use crate::kind::either;
use std::alloc::AllocError;

/// A fault of a model, M1 to M7.
#[derive(Clone, Copy)]
pub enum Fault {
    /// M1: a name that is not bound.
    Unbound,
    /// M2: a set where a relation is wanted, or a relation where a set is.
    Kind,
    /// M3: a name of a recursive group under `~` or right of `\`.
    NotMonotone,
    /// M4: a name twice in a group or among parameters.
    Duplicate,
    /// M5: a set in a recursive group.
    SetInRec,
    /// M6: a wrong number of arguments.
    Arity,
    /// M7: an application or a list of parameters that is too large.
    TooLarge,
}

/// Whether it is M2.
pub fn is_kind_fault(fault: Fault) -> bool
    ensures { result ≡ definition.is_kind_fault (fault_as fault) }
{
    match fault {
        Fault::Unbound => false,
        Fault::Kind => true,
        Fault::NotMonotone => false,
        Fault::Duplicate => false,
        Fault::SetInRec => false,
        Fault::Arity => false,
        Fault::TooLarge => false,
    }
}

/// Whether it is M3.
pub fn is_monotone_fault(fault: Fault) -> bool
    ensures { result ≡ definition.is_monotone_fault (fault_as fault) }
{
    match fault {
        Fault::Unbound => false,
        Fault::Kind => false,
        Fault::NotMonotone => true,
        Fault::Duplicate => false,
        Fault::SetInRec => false,
        Fault::Arity => false,
        Fault::TooLarge => false,
    }
}

/// Whether it is M1 or M6.
pub fn is_body_fault(fault: Fault) -> bool
    ensures { result ≡ definition.is_body_fault (fault_as fault) }
{
    match fault {
        Fault::Unbound => true,
        Fault::Kind => false,
        Fault::NotMonotone => false,
        Fault::Duplicate => false,
        Fault::SetInRec => false,
        Fault::Arity => true,
        Fault::TooLarge => false,
    }
}

/// Whether M2 is among the faults.
pub fn has_kind_fault(faults: &[Fault]) -> bool
    ensures { result ≡ list_any definition.is_kind_fault (faults_as faults.now) }
{
    match faults.split_first() {
        Some((first, rest)) => either(is_kind_fault(*first), has_kind_fault(rest)),
        None => false,
    }
}

/// Whether M3 is among the faults.
pub fn has_monotone_fault(faults: &[Fault]) -> bool
    ensures { result ≡ list_any definition.is_monotone_fault (faults_as faults.now) }
{
    match faults.split_first() {
        Some((first, rest)) => either(is_monotone_fault(*first), has_monotone_fault(rest)),
        None => false,
    }
}

/// Puts the fault behind the others, if the test holds. Errors: want of memory, as in all that
/// follows.
pub fn add_if(faults: &mut Vec<Fault>, is: bool, fault: Fault) -> Result<(), AllocError>
    ensures { OnOk result
        (Adds (definition.fault_if is (fault_as fault)) faults.old.items faults.new.items) }
{
    if !is {
        return Ok(());
    }
    faults.push(fault)?;
    Ok(())
}

/// Puts faults behind the others.
pub fn add_all(faults: &mut Vec<Fault>, more: &[Fault]) -> Result<(), AllocError>
    ensures { OnOk result (Adds (faults_as more.now) faults.old.items faults.new.items) }
{
    faults.extend_from_slice(more)?;
    Ok(())
}

/// Puts those faults behind the others that are M1 or M6.
pub fn add_body_faults(faults: &mut Vec<Fault>, more: &[Fault]) -> Result<(), AllocError>
    ensures { OnOk result (Adds (filter definition.is_body_fault (faults_as more.now))
        faults.old.items faults.new.items) }
{
    match more.split_first() {
        Some((first, rest)) => {
            add_if(faults, is_body_fault(*first), *first)?;
            add_body_faults(faults, rest)?;
            Ok(())
        }
        None => Ok(()),
    }
}
