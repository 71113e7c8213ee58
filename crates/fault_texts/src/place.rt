//! Faults and where they stand.

ghost use Rattle.std.specs.Prelude.{◌≡◌, option_map};
ghost use Rattle.fault_texts.specs.Search.{signed_fault_of, signed_fault, or_later};

use binding_kinds::ModelFault;

/// A fault of an item, and the name, the sign or the operator that it stands at.
#[derive(Clone, Copy)]
pub struct SignFault<'t> {
    /// The fault.
    pub fault: ModelFault,
    /// The name, the sign or the operator, as a model writes it.
    pub sign: &'t [u8],
}

/// A fault of a model, and where it stands.
#[derive(Clone, Copy)]
pub struct ItemFault<'t> {
    /// The index of the item, from 0.
    pub item: usize,
    /// The fault.
    pub fault: ModelFault,
    /// The name, the sign or the operator, as a model writes it.
    pub sign: &'t [u8],
}

/// The fault at this sign, if there is one.
pub fn signed_fault<'t>(fault: Option<ModelFault>, sign: &'t [u8]) -> Option<SignFault<'t>>
    ensures { option_map signed_fault_of result ≡ signed_fault fault sign.now }
{
    match fault {
        None => None,
        Some(fault) => Some(SignFault { fault, sign }),
    }
}

/// The first that is there.
pub fn or_later<'t>(
    first: Option<SignFault<'t>>,
    later: Option<SignFault<'t>>,
) -> Option<SignFault<'t>>
    ensures { option_map signed_fault_of result
        ≡ or_later (option_map signed_fault_of first.entry)
        (option_map signed_fault_of later.entry) }
{
    match first {
        None => later,
        Some(found) => Some(found),
    }
}
