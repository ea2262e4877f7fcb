// Section types: what a type byte stands for, its class and its least size.
ghost use Rattle.std.specs.Prelude.{◌≡◌};
ghost use Rattle.sections.specs.Types.{plain_leaf, type_info};

// 002's numbers. They stay numbers: any byte may be asked for, and document 01 wants a match on the byte in which an unknown one is a plain leaf.
pub const SECTION_COMPRESSION: u8 = 0x01;

pub const SECTION_GUID_DEFINED: u8 = 0x02;

pub const SECTION_PE32: u8 = 0x10;

pub const SECTION_PIC: u8 = 0x11;

pub const SECTION_TE: u8 = 0x12;

pub const SECTION_DXE_DEPEX: u8 = 0x13;

pub const SECTION_VERSION: u8 = 0x14;

pub const SECTION_USER_INTERFACE: u8 = 0x15;

pub const SECTION_COMPATIBILITY16: u8 = 0x16;

pub const SECTION_FIRMWARE_VOLUME_IMAGE: u8 = 0x17;

pub const SECTION_FREEFORM_SUBTYPE_GUID: u8 = 0x18;

pub const SECTION_RAW: u8 = 0x19;

pub const SECTION_PEI_DEPEX: u8 = 0x1B;

// The lengths of the headers: the one that all sections share, and those of the three types with fields of their own.
pub(crate) const COMMON_HEADER: usize = 4;

pub(crate) const COMPRESSION_HEADER: usize = 9;

pub(crate) const GUID_DEFINED_HEADER: usize = 24;

const FREEFORM_HEADER: usize = 20;

// The thirteen types that document 01 lists, and all others.
#[derive(Clone, Copy, Debug, PartialEq, Eq)]
pub enum TypeName {
    Compression,
    GuidDefined,
    Pe32,
    Pic,
    Te,
    DxeDepex,
    Version,
    UserInterface,
    Compatibility16,
    FirmwareVolumeImage,
    FreeformSubtypeGuid,
    Raw,
    PeiDepex,
    Unknown,
}

// A holder is what 002 calls an encapsulation section.
#[derive(Clone, Copy, Debug, PartialEq, Eq)]
pub enum Class {
    OpenableHolder,
    GuidHeadedLeaf,
    PlainLeaf,
}

#[derive(Clone, Copy, Debug, PartialEq, Eq)]
pub struct TypeInfo {
    pub name: TypeName,
    pub class: Class,
    // The least size of a section of the type with a header of 4 bytes: that header and the type's fields.
    pub least: usize,
}

// The type that a type byte stands for, its class and its least size with a header of 4 bytes. An
// unknown number is a plain leaf.
pub fn type_info(section_type: u8) -> TypeInfo
    ensures { result ≡ type_info section_type }
{
    match section_type {
        SECTION_COMPRESSION => TypeInfo {
            name: TypeName::Compression,
            class: Class::OpenableHolder,
            least: COMPRESSION_HEADER,
        },
        SECTION_GUID_DEFINED => TypeInfo {
            name: TypeName::GuidDefined,
            class: Class::OpenableHolder,
            least: GUID_DEFINED_HEADER,
        },
        SECTION_PE32 => plain_leaf(TypeName::Pe32),
        SECTION_PIC => plain_leaf(TypeName::Pic),
        SECTION_TE => plain_leaf(TypeName::Te),
        SECTION_DXE_DEPEX => plain_leaf(TypeName::DxeDepex),
        SECTION_VERSION => plain_leaf(TypeName::Version),
        SECTION_USER_INTERFACE => plain_leaf(TypeName::UserInterface),
        SECTION_COMPATIBILITY16 => plain_leaf(TypeName::Compatibility16),
        SECTION_FIRMWARE_VOLUME_IMAGE => plain_leaf(TypeName::FirmwareVolumeImage),
        SECTION_FREEFORM_SUBTYPE_GUID => TypeInfo {
            name: TypeName::FreeformSubtypeGuid,
            class: Class::GuidHeadedLeaf,
            least: FREEFORM_HEADER,
        },
        SECTION_RAW => plain_leaf(TypeName::Raw),
        SECTION_PEI_DEPEX => plain_leaf(TypeName::PeiDepex),
        _ => plain_leaf(TypeName::Unknown),
    }
}

fn plain_leaf(name: TypeName) -> TypeInfo
    ensures { result ≡ plain_leaf name }
{
    TypeInfo {
        name,
        class: Class::PlainLeaf,
        least: COMMON_HEADER,
    }
}
