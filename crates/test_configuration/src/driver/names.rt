// The templates of a text.
ghost use Rattle.std.specs.Prelude.{◌≡◌};
ghost use Rattle.std.specs.Option.{option_copied};
ghost use Rattle.test_configuration.specs.Names.{text_of};

use sg_destination::Templates;
use sg_device::{Name, NoMemory};
use std::alloc::Global;

/// The names and texts of templates.
#[derive(Drop)]
pub struct TemplateNames {
    rows: Vec<(Name, Name)>,
}

impl TemplateNames {
    pub(crate) fn new(alloc: Global) -> TemplateNames {
        TemplateNames {
            rows: Vec::new(alloc),
        }
    }

    pub(crate) fn push(&mut self, name: Name, text: Name) -> Result<(), NoMemory> {
        self.rows.push((name, text))?;
        Ok(())
    }
}

fn find<'a>(rows: &'a [(Name, Name)], name: &[u8]) -> Option<&'a [u8]>
    ensures { option_copied result ≡ text_of rows.now name.now }
{
    for row in rows {
        if row.0.bytes() == name {
            return Some(row.1.bytes());
        }
    }
    None
}

impl Templates for TemplateNames {
    ghost texts = { λ named. text_of named.rows.items };

    fn text(&self, name: &[u8]) -> Option<&[u8]> {
        find(&self.rows, name)
    }
}
