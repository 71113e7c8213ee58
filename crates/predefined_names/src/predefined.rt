//! The predefined names of a model.

ghost use Rattle.std.specs.Prelude.{◌≡◌};
ghost use Rattle.predefined_names.specs.PredefinedNames.{spelling, is_set};

/// A predefined name: a set of events or a relation between events of an execution
/// (the herd7 manual, chapter on cat, section on predefined names).
#[derive(Clone, Copy, PartialEq, Eq)]
pub enum Predefined {
    /// `R`
    Loads,
    /// `W`, with the initial stores
    Stores,
    /// `M`
    Accesses,
    /// `F`
    Fences,
    /// `IW`
    InitialStores,
    /// `SYNC`
    SyncFences,
    /// `LWSYNC`
    LwsyncFences,
    /// `EIEIO`
    EieioFences,
    /// `ISYNC`
    IsyncFences,
    /// `id`
    Identity,
    /// `po`
    ProgramOrder,
    /// `loc`
    SameLocation,
    /// `po-loc`
    ProgramOrderSameLocation,
    /// `int`
    Internal,
    /// `ext`
    External,
    /// `rf`
    ReadsFrom,
    /// `co`
    Coherence,
    /// `fr`
    FromReads,
    /// `rfe`
    ReadsFromExternal,
    /// `rfi`
    ReadsFromInternal,
    /// `coe`
    CoherenceExternal,
    /// `coi`
    CoherenceInternal,
    /// `fre`
    FromReadsExternal,
    /// `fri`
    FromReadsInternal,
    /// `com`
    Communication,
    /// `addr`
    AddressDependency,
    /// `data`
    DataDependency,
    /// `ctrl`
    ControlDependency,
    /// `ctrlisync`
    ControlIsyncDependency,
    /// `sync`
    SyncOrder,
    /// `lwsync`
    LwsyncOrder,
    /// `eieio`
    EieioOrder,
    /// `isync`
    IsyncOrder,
}

/// How many predefined names there are.
pub const PREDEFINED_COUNT: usize = 33;

/// All predefined names.
pub const PREDEFINED: [Predefined; PREDEFINED_COUNT] = [
    Predefined::Loads,
    Predefined::Stores,
    Predefined::Accesses,
    Predefined::Fences,
    Predefined::InitialStores,
    Predefined::SyncFences,
    Predefined::LwsyncFences,
    Predefined::EieioFences,
    Predefined::IsyncFences,
    Predefined::Identity,
    Predefined::ProgramOrder,
    Predefined::SameLocation,
    Predefined::ProgramOrderSameLocation,
    Predefined::Internal,
    Predefined::External,
    Predefined::ReadsFrom,
    Predefined::Coherence,
    Predefined::FromReads,
    Predefined::ReadsFromExternal,
    Predefined::ReadsFromInternal,
    Predefined::CoherenceExternal,
    Predefined::CoherenceInternal,
    Predefined::FromReadsExternal,
    Predefined::FromReadsInternal,
    Predefined::Communication,
    Predefined::AddressDependency,
    Predefined::DataDependency,
    Predefined::ControlDependency,
    Predefined::ControlIsyncDependency,
    Predefined::SyncOrder,
    Predefined::LwsyncOrder,
    Predefined::EieioOrder,
    Predefined::IsyncOrder,
];

impl Predefined {
    /// How a model writes it.
    pub fn spelling(self) -> &'static [u8]
        ensures { result.now ≡ spelling self }
    {
        match self {
            Predefined::Loads => b"R",
            Predefined::Stores => b"W",
            Predefined::Accesses => b"M",
            Predefined::Fences => b"F",
            Predefined::InitialStores => b"IW",
            Predefined::SyncFences => b"SYNC",
            Predefined::LwsyncFences => b"LWSYNC",
            Predefined::EieioFences => b"EIEIO",
            Predefined::IsyncFences => b"ISYNC",
            Predefined::Identity => b"id",
            Predefined::ProgramOrder => b"po",
            Predefined::SameLocation => b"loc",
            Predefined::ProgramOrderSameLocation => b"po-loc",
            Predefined::Internal => b"int",
            Predefined::External => b"ext",
            Predefined::ReadsFrom => b"rf",
            Predefined::Coherence => b"co",
            Predefined::FromReads => b"fr",
            Predefined::ReadsFromExternal => b"rfe",
            Predefined::ReadsFromInternal => b"rfi",
            Predefined::CoherenceExternal => b"coe",
            Predefined::CoherenceInternal => b"coi",
            Predefined::FromReadsExternal => b"fre",
            Predefined::FromReadsInternal => b"fri",
            Predefined::Communication => b"com",
            Predefined::AddressDependency => b"addr",
            Predefined::DataDependency => b"data",
            Predefined::ControlDependency => b"ctrl",
            Predefined::ControlIsyncDependency => b"ctrlisync",
            Predefined::SyncOrder => b"sync",
            Predefined::LwsyncOrder => b"lwsync",
            Predefined::EieioOrder => b"eieio",
            Predefined::IsyncOrder => b"isync",
        }
    }

    /// Whether it is a set of events, and no relation.
    pub fn is_set(self) -> bool
        ensures { result ≡ is_set self }
    {
        matches!(
            self,
            Predefined::Loads
                | Predefined::Stores
                | Predefined::Accesses
                | Predefined::Fences
                | Predefined::InitialStores
                | Predefined::SyncFences
                | Predefined::LwsyncFences
                | Predefined::EieioFences
                | Predefined::IsyncFences
        )
    }
}
