// The refusals of the documents 01 and 02, as one error for all crates, so that `?` passes it on.
ghost use Rattle.std.specs.Prelude.{◌≡◌};
ghost use Rattle.common.specs.Refusal.{number};

use std::error::Error;
use std::fmt;

// Why a call is refused. The first five are named as 000 names them (EFI_INVALID_PARAMETER); `as u16` gives the documents' number.
#[derive(Clone, Copy, Debug, PartialEq, Eq)]
pub enum Refusal {
    InvalidParameter = 2,
    Unsupported = 3,
    BufferTooSmall = 5,
    NotFound = 14,
    AccessDenied = 15,
    NoHeader = 101,
    WrongSignature = 102,
    UnknownRevision = 103,
    WrongHeaderLength = 104,
    WrongWordSum = 105,
    WrongBlockMap = 106,
    WrongLength = 107,
    WrongAttributes = 108,
    VolumeCut = 109,
    UnalignedBase = 110,
    UnlawfulState = 111,
    WrongExtendedHeader = 112,
    SectionCut = 201,
    SectionTooShort = 202,
    SectionTooLong = 203,
    WrongContents = 204,
    TooDeep = 205,
    StreamTooLong = 206,
    NonzeroPadding = 207,
    WrongTotal = 208,
    UnknownOpcode = 301,
    OperandCut = 302,
    StackExceeded = 303,
    WrongKind = 304,
    NoEnd = 305,
}

impl Refusal {
    // The documents' number.
    pub fn number(self) -> u16
        ensures { result ≡ number self }
    {
        self as u16
    }
}

impl fmt::Display for Refusal {
    fn fmt<W: fmt::Write>(&self, f: &mut fmt::Formatter<W>) -> fmt::Result {
        f.write_str(match self {
            Refusal::InvalidParameter =>
                "no such block, a bad list, a bad setting or a bad argument",
            Refusal::Unsupported => "the volume is not memory mapped",
            Refusal::BufferTooSmall => "fewer bytes are lent than are needed",
            Refusal::NotFound => "there is no such section, entry or firmware",
            Refusal::AccessDenied =>
                "reads or writes are disabled, the settings are locked, or a block is protected",
            Refusal::NoHeader => "the volume is too short for a header",
            Refusal::WrongSignature => "the volume has not the signature of one",
            Refusal::UnknownRevision => "the revision of the header is not known",
            Refusal::WrongHeaderLength =>
                "the header has a length that no header has, or is cut off",
            Refusal::WrongWordSum => "the words of the header do not sum to zero",
            Refusal::WrongBlockMap => "the block map has a zero, or is not ended",
            Refusal::WrongLength =>
                "the blocks do not make up the length of the volume, or a limit is passed",
            Refusal::WrongAttributes => "the attributes break a rule",
            Refusal::VolumeCut => "the volume is longer than the bytes lent",
            Refusal::UnalignedBase => "the base address is not a multiple of eight",
            Refusal::UnlawfulState => "the state is none that opening or a call leaves",
            Refusal::WrongExtendedHeader => "the extended header is at fault",
            Refusal::SectionCut => "the header of a section is cut off",
            Refusal::SectionTooShort => "a section is shorter than its type allows",
            Refusal::SectionTooLong => "a section ends behind the stream that holds it",
            Refusal::WrongContents => "the contents of a section do not fit it",
            Refusal::TooDeep => "sections lie too deep in one another",
            Refusal::StreamTooLong => "the stream is too long",
            Refusal::NonzeroPadding => "the padding is not zero",
            Refusal::WrongTotal => "more or fewer bytes came than were announced",
            Refusal::UnknownOpcode => "the opcode is not known",
            Refusal::OperandCut => "the operand of an opcode is cut off",
            Refusal::StackExceeded => "the stack is empty or full",
            Refusal::WrongKind => "an opcode takes values of another kind",
            Refusal::NoEnd => "the expression does not end, or not with one truth",
        })
    }
}

impl Error for Refusal {}
