//! Mnemonics, and the tokens that each wants behind it.

ghost use Rattle.std.specs.Prelude.{◌≡◌};
ghost use Rattle.litmus_words.specs.Words.{computing_of, accessing_of, fence_of, branch_of, opcode_of, data_form};

use text_values::{BranchCondition, Fence, Operation};

/// The mnemonic of an instruction.
#[derive(Clone, Copy)]
pub enum Opcode {
    /// The mnemonic of an instruction on registers and numbers.
    Data(DataOpcode),
    /// A branch to a label, with its condition if it has one.
    Branch(Option<BranchCondition>),
    /// A fence, which has no operands.
    Fence(Fence),
}

/// The mnemonic of an instruction whose operands are registers and numbers.
#[derive(Clone, Copy)]
pub enum DataOpcode {
    /// `li`
    LoadImmediate,
    /// `mr`
    Move,
    /// `addi`
    AddImmediate,
    /// `add`, `subf`, `xor`, `or` or `and`
    Compute(Operation),
    /// `lwz`
    Load,
    /// `lwzx`
    LoadIndexed,
    /// `stw`
    Store,
    /// `stwx`
    StoreIndexed,
    /// `cmpw`
    Compare,
    /// `cmpwi`
    CompareImmediate,
}

/// A token that an instruction wants.
#[derive(Clone, Copy, PartialEq, Eq)]
pub enum Want {
    /// A register.
    Register,
    /// A register other than `r0`, which Power reads as zero here.
    Base,
    /// A number of 32 bits.
    Immediate,
    /// The offset 0.
    Zero,
    /// `,`
    Comma,
    /// `(`
    Open,
    /// `)`
    Close,
}

/// The mnemonic that a word spells, or `None`.
pub fn opcode_of(word: &[u8]) -> Option<Opcode>
    ensures { result ≡ opcode_of word.now }
{
    if let Some(opcode) = computing_of(word) {
        return Some(Opcode::Data(opcode));
    }
    if let Some(opcode) = accessing_of(word) {
        return Some(Opcode::Data(opcode));
    }
    if let Some(fence) = fence_of(word) {
        return Some(Opcode::Fence(fence));
    }
    match branch_of(word) {
        Some(condition) => Some(Opcode::Branch(condition)),
        None => None,
    }
}

// The word of an instruction that computes.
#[tactic(auto, unfolding(crate::specs::Words::computing_of))]
fn computing_of(word: &[u8]) -> Option<DataOpcode>
    ensures { result ≡ computing_of word.now }
{
    if word == b"li".as_slice() {
        return Some(DataOpcode::LoadImmediate);
    }
    if word == b"mr".as_slice() {
        return Some(DataOpcode::Move);
    }
    if word == b"addi".as_slice() {
        return Some(DataOpcode::AddImmediate);
    }
    if word == b"add".as_slice() {
        return Some(DataOpcode::Compute(Operation::Add));
    }
    if word == b"subf".as_slice() {
        return Some(DataOpcode::Compute(Operation::SubtractFrom));
    }
    if word == b"xor".as_slice() {
        return Some(DataOpcode::Compute(Operation::Xor));
    }
    if word == b"or".as_slice() {
        return Some(DataOpcode::Compute(Operation::Or));
    }
    if word == b"and".as_slice() {
        return Some(DataOpcode::Compute(Operation::And));
    }
    None
}

// The word of an instruction that reads or writes memory, or compares.
#[tactic(auto, unfolding(crate::specs::Words::accessing_of))]
fn accessing_of(word: &[u8]) -> Option<DataOpcode>
    ensures { result ≡ accessing_of word.now }
{
    if word == b"lwz".as_slice() {
        return Some(DataOpcode::Load);
    }
    if word == b"lwzx".as_slice() {
        return Some(DataOpcode::LoadIndexed);
    }
    if word == b"stw".as_slice() {
        return Some(DataOpcode::Store);
    }
    if word == b"stwx".as_slice() {
        return Some(DataOpcode::StoreIndexed);
    }
    if word == b"cmpw".as_slice() {
        return Some(DataOpcode::Compare);
    }
    if word == b"cmpwi".as_slice() {
        return Some(DataOpcode::CompareImmediate);
    }
    None
}

#[tactic(auto, unfolding(crate::specs::Words::fence_of))]
fn fence_of(word: &[u8]) -> Option<Fence>
    ensures { result ≡ fence_of word.now }
{
    if word == b"sync".as_slice() {
        return Some(Fence::Sync);
    }
    if word == b"lwsync".as_slice() {
        return Some(Fence::LightweightSync);
    }
    if word == b"eieio".as_slice() {
        return Some(Fence::Eieio);
    }
    if word == b"isync".as_slice() {
        return Some(Fence::Isync);
    }
    None
}

// The condition of a branch, if it has one.
#[tactic(auto, unfolding(crate::specs::Words::branch_of))]
fn branch_of(word: &[u8]) -> Option<Option<BranchCondition>>
    ensures { result ≡ branch_of word.now }
{
    if word == b"beq".as_slice() {
        return Some(Some(BranchCondition::Equal));
    }
    if word == b"bne".as_slice() {
        return Some(Some(BranchCondition::NotEqual));
    }
    if word == b"blt".as_slice() {
        return Some(Some(BranchCondition::Less));
    }
    if word == b"bgt".as_slice() {
        return Some(Some(BranchCondition::Greater));
    }
    if word == b"ble".as_slice() {
        return Some(Some(BranchCondition::LessOrEqual));
    }
    if word == b"bge".as_slice() {
        return Some(Some(BranchCondition::GreaterOrEqual));
    }
    if word == b"b".as_slice() {
        return Some(None);
    }
    None
}

impl DataOpcode {
    /// The tokens that follow the mnemonic.
    pub fn form(self) -> &'static [Want]
        ensures { result.now ≡ data_form self }
    {
        match self {
            DataOpcode::LoadImmediate | DataOpcode::CompareImmediate => {
                &[Want::Register, Want::Comma, Want::Immediate]
            }
            DataOpcode::Move | DataOpcode::Compare => {
                &[Want::Register, Want::Comma, Want::Register]
            }
            DataOpcode::AddImmediate => &[
                Want::Register,
                Want::Comma,
                Want::Base,
                Want::Comma,
                Want::Immediate,
            ],
            DataOpcode::Compute(_) => &[
                Want::Register,
                Want::Comma,
                Want::Register,
                Want::Comma,
                Want::Register,
            ],
            DataOpcode::Load | DataOpcode::Store => &[
                Want::Register,
                Want::Comma,
                Want::Zero,
                Want::Open,
                Want::Base,
                Want::Close,
            ],
            DataOpcode::LoadIndexed | DataOpcode::StoreIndexed => &[
                Want::Register,
                Want::Comma,
                Want::Base,
                Want::Comma,
                Want::Register,
            ],
        }
    }
}
