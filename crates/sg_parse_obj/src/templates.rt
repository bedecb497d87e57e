// Templates.
ghost use Rattle.std.specs.Prelude.{◌≡◌, None};
ghost use Rattle.sg_parse_base.specs.Input.{ReadsTokens};
ghost use Rattle.sg_parse_obj.specs.Templates as spec;

use sg_lex::ConfigKind;
use sg_parse_base::{Cursor, ItemRule, ParseStop, Spot, sees_word, symbol, unsupported};
use sg_parse_expr::{Class, is_yes, value};
use sqlite_items::Items;
use std::alloc::Global;

/// What stands in the block of a template.
#[derive(Drop)]
pub enum TemplateItem {
    Text(Spot),
    /// `template-escape`, which must be off.
    Escape,
}

#[tactic(auto, unfolding(crate::specs::Templates::text_item))]
fn text_item(alloc: Global, cursor: &mut Cursor<'_>) -> Result<TemplateItem, ParseStop>
    ensures { ReadsTokens (spec.text_item cursor.old) result cursor.new }
{
    symbol(cursor, b'(')?;
    let text = value(alloc, cursor, Class::Text)?;
    symbol(cursor, b')')?;
    Ok(TemplateItem::Text(text))
}

#[tactic(auto, unfolding(crate::specs::Templates::escape_item))]
fn escape_item(alloc: Global, cursor: &mut Cursor<'_>) -> Result<TemplateItem, ParseStop>
    ensures { ReadsTokens (spec.escape_item cursor.old) result cursor.new }
{
    let word = cursor.take()?;
    symbol(cursor, b'(')?;
    let truth = value(alloc, cursor, Class::Truth)?;
    if is_yes(truth.token.text.bytes()) {
        return Err(unsupported(&word));
    }
    symbol(cursor, b')')?;
    Ok(TemplateItem::Escape)
}

#[tactic(auto, unfolding(crate::specs::Templates::template_item))]
fn template_item(alloc: Global, cursor: &mut Cursor<'_>) -> Result<TemplateItem, ParseStop>
    ensures { ReadsTokens (spec.template_item cursor.old) result cursor.new }
{
    if sees_word(cursor, b"template") {
        cursor.skip();
        return text_item(alloc, cursor);
    }
    if sees_word(cursor, b"template-escape") {
        return escape_item(alloc, cursor);
    }
    Err(cursor.fault(ConfigKind::Unexpected))
}

/// An item of the block of a template.
#[derive(Drop)]
pub struct TemplateRule;

impl ItemRule for TemplateRule {
    type Item = TemplateItem;

    ghost parser = { λ _. spec.template_item };

    fn read(&self, alloc: Global, cursor: &mut Cursor<'_>) -> Result<TemplateItem, ParseStop> {
        template_item(alloc, cursor)
    }
}

/// The last of the texts.
pub fn last_text(mut items: Items<TemplateItem>) -> Option<Spot>
    ensures { result ≡ spec.last_text None items }
{
    while let Some(item) = items.pop() {
        match item {
            TemplateItem::Text(text) => return Some(text),
            TemplateItem::Escape => {}
        }
    }
    None
}
