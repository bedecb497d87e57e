// The texts of template statements by their names.
ghost use Rattle.std.specs.Prelude.{◌≡◌, IfOk, OnOk};
ghost use Rattle.std.specs.Option.{option_copied};
ghost use Rattle.std.specs.FinMap as map;
ghost use Rattle.sg_resolve.specs.Templates.{text_of, with_template, with_statement, templates_of};

use sg_block::NameMap;
use sg_destination::Templates;
use sg_device::{Name, NoMemory};
use sg_parse_base::Spot;
use sg_parse_obj::Object;
use sg_parse_text::Statement;
use std::alloc::Global;

/// The texts of templates: for each name that of the first statement.
#[derive(Drop)]
pub struct TemplateTexts {
    pub texts: NameMap<Name>,
}

impl Templates for TemplateTexts {
    ghost texts = { λ t name. map.get t.texts name };

    fn text(&self, name: &[u8]) -> Option<&[u8]> {
        match self.texts.get(name) {
            Some(text) => Some(text.bytes()),
            None => None,
        }
    }
}

fn text_of(alloc: Global, text: &Option<Spot>) -> Result<Name, NoMemory>
    ensures { IfOk result (λ name. name ≡ text_of text.now) }
{
    match text {
        Some(spot) => spot.token.text.copy(),
        None => Name::new(alloc, b""),
    }
}

fn enter(
    alloc: Global,
    texts: &mut TemplateTexts,
    name: &Spot,
    text: &Option<Spot>,
) -> Result<(), NoMemory>
    ensures { OnOk result (texts.new ≡ with_template texts.old name.now text.now) }
{
    let key = name.token.text.bytes();
    if !texts.texts.has(key) {
        texts
            .texts
            .insert(key.to_vec(alloc)?, text_of(alloc, text)?)?;
    }
    Ok(())
}

fn enter_statement(
    alloc: Global,
    texts: &mut TemplateTexts,
    statement: &Statement,
) -> Result<(), NoMemory>
    ensures { OnOk result (texts.new ≡ with_statement texts.old statement.now) }
{
    match statement {
        Statement::Object(Object::Template { name, text }) => {
            enter(alloc, texts, name, text)?;
            Ok(())
        }
        _ => Ok(()),
    }
}

/// The texts of all template statements.
#[tactic(auto, unfolding(crate::specs::Templates::templates_of))]
pub fn templates_of(alloc: Global, statements: &[Statement]) -> Result<TemplateTexts, NoMemory>
    ensures { IfOk result (λ texts. texts ≡ templates_of statements.now) }
{
    let mut texts = TemplateTexts {
        texts: NameMap::new(alloc),
    };
    for statement in statements {
        enter_statement(alloc, &mut texts, statement)?;
    }
    Ok(texts)
}
