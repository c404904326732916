//! The kinds of items and of memories, which the settings name by a code.
ghost use Rattle.book.specs.Codes.{Decodes, kind_code, memory_code};

#[derive(Clone, Copy, Debug, PartialEq, Eq)]
pub enum ItemKind {
    Edit,
    Reading,
}

#[derive(Clone, Copy, Debug, PartialEq, Eq)]
pub enum MemoryKind {
    Prompt,
    Loose,
}

/// A code that stands for nothing.
#[derive(Clone, Copy, Debug, PartialEq, Eq)]
pub struct UnknownCode;

// by hand, as no derive reads a code; each of the two has its own table
impl TryFrom<u8> for ItemKind {
    type Error = UnknownCode;

    ghost try_from_gives = { Decodes kind_code };

    fn try_from(code: u8) -> Result<ItemKind, UnknownCode> {
        match code {
            1 => Ok(ItemKind::Edit),
            2 => Ok(ItemKind::Reading),
            _ => Err(UnknownCode),
        }
    }
}

impl TryFrom<u8> for MemoryKind {
    type Error = UnknownCode;

    ghost try_from_gives = { Decodes memory_code };

    fn try_from(code: u8) -> Result<MemoryKind, UnknownCode> {
        match code {
            1 => Ok(MemoryKind::Prompt),
            2 => Ok(MemoryKind::Loose),
            _ => Err(UnknownCode),
        }
    }
}
