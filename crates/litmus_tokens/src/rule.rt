//! The rules that a text can break.

ghost use Rattle.std.specs.Prelude.{◌≡◌};
ghost use Rattle.litmus_tokens.specs.Numbers.{number_of};

/// The rule that a text breaks, with its number.
#[derive(Clone, Copy, Debug, PartialEq, Eq)]
pub enum LitmusRule {
    /// L1: the first word is not `PPC`.
    NotPpc,
    /// L2: the name of the test, through the line end behind it.
    Name,
    /// L3: from there through the `}` of the init block; a second entry for a location or a
    /// register; an entry for a thread that the test does not have.
    Init,
    /// L4: a word right after a word in the init block, as in `int x`.
    TypedDeclaration,
    /// L5: the header, `P0 | P1 ..;`.
    Header,
    /// L6: a `;` where a `|` could stand, or a `|` where a `;` could.
    Columns,
    /// L7: the rows; an end of the text right behind the header or behind a whole row.
    Instruction,
    /// L8: `r0` as the first address register, where Power reads it as zero.
    ZeroBase,
    /// L9: an offset that is not 0.
    Offset,
    /// L10: a label that its thread defines twice, or a branch to a label that its thread does not
    /// define.
    Label,
    /// L11: a branch to a label that stands before it.
    BackwardBranch,
    /// L12: `locations` and the condition; a thread there that the test does not have;
    /// too deep or too many operators.
    Condition,
    /// L13: `filter` or `final`, which are not supported.
    Filter,
    /// L14: a comment that does not end.
    OpenComment,
    /// L15: a byte that is not ASCII, outside comments and strings.
    NotAscii,
    /// L16: a text of over 65,536 bytes.
    TooLong,
    /// L17: a ninth thread.
    TooManyThreads,
}

impl LitmusRule {
    /// The number that a refusal is printed with, from 1 to 17.
    pub fn number(self) -> u8
        ensures { result ≡ number_of self }
    {
        match self {
            LitmusRule::NotPpc => 1,
            LitmusRule::Name => 2,
            LitmusRule::Init => 3,
            LitmusRule::TypedDeclaration => 4,
            LitmusRule::Header => 5,
            LitmusRule::Columns => 6,
            LitmusRule::Instruction => 7,
            LitmusRule::ZeroBase => 8,
            LitmusRule::Offset => 9,
            LitmusRule::Label => 10,
            LitmusRule::BackwardBranch => 11,
            LitmusRule::Condition => 12,
            LitmusRule::Filter => 13,
            LitmusRule::OpenComment => 14,
            LitmusRule::NotAscii => 15,
            LitmusRule::TooLong => 16,
            LitmusRule::TooManyThreads => 17,
        }
    }
}
