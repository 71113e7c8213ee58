//! What is wrong with a model.

ghost use Rattle.std.specs.Prelude.{◌≡◌};
ghost use Rattle.binding_kinds.specs.Numbers.{number};

/// What is wrong with a model whose text reads.
#[derive(Clone, Copy, Debug, PartialEq, Eq)]
pub enum ModelFault {
    /// M1: a name that is not bound.
    Unbound,
    /// M2: an operator or a check that does not take its operands.
    Kind,
    /// M3: a name of a recursive group, in that group, under `~` or right of `\`.
    NotMonotone,
    /// M4: the second binding of a name in one group, or a parameter that stands twice.
    Duplicate,
    /// M5: a body of a recursive group that is a set.
    SetInRec,
    /// M6: a function that is applied to another number of arguments or stands without any, or a
    /// name that is applied and is no function.
    Arity,
    /// M7: an application of size over 4,096.
    TooLarge,
}

impl ModelFault {
    /// The number that it is printed with, from 1 to 7.
    pub fn number(self) -> u8
        ensures { result ≡ number self }
    {
        match self {
            ModelFault::Unbound => 1,
            ModelFault::Kind => 2,
            ModelFault::NotMonotone => 3,
            ModelFault::Duplicate => 4,
            ModelFault::SetInRec => 5,
            ModelFault::Arity => 6,
            ModelFault::TooLarge => 7,
        }
    }
}
