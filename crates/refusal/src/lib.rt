// The one list of refusals, and the sorts of number that come with them.
#![tactic(auto)]

ghost use Rattle.std.specs.Prelude.{◌≡◌};
ghost use Rattle.refusal.specs.Numbered.{number, detail, place};

// A member of the survey, counted from 0.
#[derive(Clone, Copy, PartialEq, Eq, PartialOrd, Ord, Debug)]
pub struct Member(pub usize);

// A row of an answer log, counted from 0.
#[derive(Clone, Copy, PartialEq, Eq, Debug)]
pub struct LogRow(pub usize);

// A byte of a line of query text, counted from 0.
#[derive(Clone, Copy, PartialEq, Eq, Debug)]
pub struct BytePlace(pub usize);

// What a refusal points at. No Option: it points at either of two sorts of number, and often at neither.
#[derive(Clone, Copy, PartialEq, Eq, Debug)]
pub enum Site {
    Nothing,
    OfMember(Member),
    OfRow(LogRow),
}

impl Site {
    // The number of what it points at, and 0 for nothing.
    pub fn place(&self) -> usize
        ensures { result ≡ place self.now }
    {
        match self {
            Site::Nothing => 0,
            Site::OfMember(m) => m.0,
            Site::OfRow(k) => k.0,
        }
    }
}

// Why a call was refused. The numbers stand in `number`, and in docs/RULES.md.
#[derive(Clone, Copy, PartialEq, Eq, Debug)]
pub enum Refusal {
    // The bytes end too soon, or go on too long.
    WrongLength(Site),
    WrongKind,
    WrongCount,
    // A map bit stands for a member that there is not.
    StrayMapBit(Site),
    NotAnElement(Site),
    // A value or weight of 0 is stored, where a clear map bit says it.
    StoredZero(Site),
    CountsDiffer,
    UnknownMark(LogRow),
    NoMemberNamed(Site),
    // Weights are stored although each is 1.
    NeedlessWeights(LogRow),
    Discloses(Site),
    OtherFigure(LogRow),
    PermitOpen,
    PermitsSpent,
    WrongRowLength,
    NotTheOpenPermit,
    NoSuchMember,
    UnexpectedByte(BytePlace),
    BadNumber(BytePlace),
    MemberRepeated(BytePlace),
    LineTooLong(BytePlace),
    AnswersFull,
    LogFull,
    LineNotEnded,
    TextTooLong,
}

impl Refusal {
    // The number that the rules give this refusal, and that is printed.
    pub fn number(&self) -> u8
        ensures { result ≡ number self.now }
    {
        match self {
            Refusal::WrongLength(_) => 1,
            Refusal::WrongKind => 2,
            Refusal::WrongCount => 3,
            Refusal::StrayMapBit(_) => 4,
            Refusal::NotAnElement(_) => 5,
            Refusal::StoredZero(_) => 6,
            Refusal::CountsDiffer => 7,
            Refusal::UnknownMark(_) => 8,
            Refusal::NoMemberNamed(_) => 9,
            Refusal::NeedlessWeights(_) => 10,
            Refusal::Discloses(_) => 11,
            Refusal::OtherFigure(_) => 12,
            Refusal::PermitOpen => 13,
            Refusal::PermitsSpent => 14,
            Refusal::WrongRowLength => 15,
            Refusal::NotTheOpenPermit => 16,
            Refusal::NoSuchMember => 17,
            Refusal::UnexpectedByte(_) => 18,
            Refusal::BadNumber(_) => 19,
            Refusal::MemberRepeated(_) => 20,
            Refusal::LineTooLong(_) => 21,
            Refusal::AnswersFull => 22,
            Refusal::LogFull => 23,
            Refusal::LineNotEnded => 24,
            Refusal::TextTooLong => 25,
        }
    }

    // What comes with it: a member, a row of a log or a byte of a line, and 0 where it points at nothing.
    pub fn detail(&self) -> usize
        ensures { result ≡ detail self.now }
    {
        match self {
            Refusal::WrongLength(s)
            | Refusal::StrayMapBit(s)
            | Refusal::NotAnElement(s)
            | Refusal::StoredZero(s)
            | Refusal::NoMemberNamed(s)
            | Refusal::Discloses(s) => s.place(),
            Refusal::UnknownMark(k) | Refusal::NeedlessWeights(k) | Refusal::OtherFigure(k) => k.0,
            Refusal::UnexpectedByte(p)
            | Refusal::BadNumber(p)
            | Refusal::MemberRepeated(p)
            | Refusal::LineTooLong(p) => p.0,
            Refusal::WrongKind
            | Refusal::WrongCount
            | Refusal::CountsDiffer
            | Refusal::PermitOpen
            | Refusal::PermitsSpent
            | Refusal::WrongRowLength
            | Refusal::NotTheOpenPermit
            | Refusal::NoSuchMember
            | Refusal::AnswersFull
            | Refusal::LogFull
            | Refusal::LineNotEnded
            | Refusal::TextTooLong => 0,
        }
    }
}
