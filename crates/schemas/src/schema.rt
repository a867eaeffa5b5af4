// A checked schema, and its entries.
ghost use Rattle.std.specs.Prelude.{◌≡◌, option_map};
ghost use Rattle.schemas.specs.Entries.{entry_at, row_bytes, function_at, signature_bytes, Sectioned};

use crate::entries::{Key, Signature, find_row};
use crate::order::Returns;
use crate::sections::Sections;
use forms::numbers::u16_at;
use forms::offsets::SchemaOffset;
use forms::rows::Row;
use forms::widths::Width;

// The bytes of a schema that is whole, and where its sections lie.
#[derive(Clone, Copy)]
pub struct Schema<'a> {
    pub bytes: &'a [u8],
    pub sections: Sections,
    pub ghost sectioned: { Sectioned bytes.now sections },
}

impl<'a> Schema<'a> {
    // The row of an entity type.
    pub fn find_entity(&self, name: usize) -> Option<Row<'a>>
        ensures { option_map row_bytes result ≡ entry_at 5 (Key.Name name) self.now.sections.entities self.now.bytes.now }
    {
        find_row::<{ Width::ENTITY }>(self.bytes, self.sections.entities, Key::Name(name))
    }

    // The row of an action.
    pub fn find_action(&self, kind: usize, id: usize) -> Option<Row<'a>>
        ensures { option_map row_bytes result ≡ entry_at 6 (Key.Uid kind id) self.now.sections.actions self.now.bytes.now }
    {
        find_row::<{ Width::ACTION }>(self.bytes, self.sections.actions, Key::Uid(kind, id))
    }

    // The signature of a function.
    pub fn find_function(&self, name: usize) -> Option<Signature<'a>>
        ensures { option_map signature_bytes result ≡ function_at name self.now.sections.functions self.now.bytes.now }
    {
        let row = find_row::<{ Width::FUNCTION }>(
            self.bytes,
            self.sections.functions,
            Key::Name(name),
        )?;
        let returns = match Returns::try_from(row.head[SchemaOffset::RETURNS]) {
            Ok(Returns::Extension) => Some(u16_at(row.head, SchemaOffset::EXTENSION)),
            _ => None,
        };
        Some(Signature {
            returns,
            arguments: row.body,
        })
    }
}
