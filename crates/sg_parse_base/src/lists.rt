// Lists of items, of which a rule reads one.
ghost use Rattle.std.specs.Prelude.{◌≡◌, [], ◌∷◌, ◌++◌, List};
ghost use Rattle.sg_parse_base.specs.Input.{ReadsTokens, Parser};
ghost use Rattle.sg_parse_base.specs.Lists.{after_commas, gap, items, many, single, ending, body};

use crate::cursor::{Cursor, sees, symbol};
use crate::fault::ParseStop;
use sg_lex::ConfigKind;
use sqlite_items::Items;
use std::alloc::Global;

/// What one item of a list is, and how it is read.
pub trait ItemRule {
    type Item: Drop;

    ghost parser: { Self → Parser Self.Item };

    fn read(&self, alloc: Global, cursor: &mut Cursor<'_>) -> Result<Self::Item, ParseStop>
        ensures { ReadsTokens (parser self.now cursor.old) result cursor.new };
}

#[tactic(auto, using(crate::proofs::CommaSteps::comma_step, crate::proofs::CommaSteps::comma_smaller, crate::proofs::CommaSteps::comma_none))]
fn skip_commas(cursor: &mut Cursor<'_>)
    ensures { cursor.new ≡ after_commas cursor.old }
{
    while sees(cursor, b',') {
        cursor.skip();
    }
}

/// Passes over what stands between an item and the next one, or the closing parenthesis: commas, but
/// none before the parenthesis.
#[tactic(auto, unfolding(crate::specs::Lists::gap))]
pub fn gap(cursor: &mut Cursor<'_>) -> Result<(), ParseStop>
    ensures { ReadsTokens (gap cursor.old) result cursor.new }
{
    let comma = sees(cursor, b',');
    skip_commas(cursor);
    if comma && sees(cursor, b')') {
        return Err(cursor.fault(ConfigKind::Unexpected));
    }
    Ok(())
}

/// Items up to the closing parenthesis, with commas or nothing between two, behind those found.
pub fn items<R: ItemRule>(
    alloc: Global,
    cursor: &mut Cursor<'_>,
    rule: &R,
    mut found: Items<R::Item>,
) -> Result<Items<R::Item>, ParseStop>
    ensures { ReadsTokens (items (R.parser rule.now) found cursor.old) result cursor.new }
{
    for _turn in 0..cursor.left() {
        if sees(cursor, b')') {
            cursor.skip();
            return Ok(found);
        }
        found.push(rule.read(alloc, cursor)?)?;
        gap(cursor)?;
    }
    Err(cursor.fault(ConfigKind::Unexpected))
}

/// Items in parentheses.
#[tactic(auto, unfolding(crate::specs::Lists::many))]
pub fn many<R: ItemRule>(
    alloc: Global,
    cursor: &mut Cursor<'_>,
    rule: &R,
) -> Result<Items<R::Item>, ParseStop>
    ensures { ReadsTokens (many (R.parser rule.now) cursor.old) result cursor.new }
{
    symbol(cursor, b'(')?;
    items(alloc, cursor, rule, Items::new(alloc))
}

/// One item in parentheses.
#[tactic(auto, unfolding(crate::specs::Lists::single))]
pub fn single<R: ItemRule>(
    alloc: Global,
    cursor: &mut Cursor<'_>,
    rule: &R,
) -> Result<Items<R::Item>, ParseStop>
    ensures { ReadsTokens (single (R.parser rule.now) cursor.old) result cursor.new }
{
    let mut found = Items::new(alloc);
    symbol(cursor, b'(')?;
    found.push(rule.read(alloc, cursor)?)?;
    symbol(cursor, b')')?;
    Ok(found)
}

/// Passes over the semicolon behind an item in braces, which may miss before the closing brace.
#[tactic(auto, unfolding(crate::specs::Lists::ending))]
pub fn ending(cursor: &mut Cursor<'_>) -> Result<(), ParseStop>
    ensures { ReadsTokens (ending cursor.old) result cursor.new }
{
    if sees(cursor, b'}') {
        return Ok(());
    }
    symbol(cursor, b';')
}

/// Items in braces, each with a semicolon behind it, and more semicolons anywhere.
pub fn body<R: ItemRule>(
    alloc: Global,
    cursor: &mut Cursor<'_>,
    rule: &R,
) -> Result<Items<R::Item>, ParseStop>
    ensures { ReadsTokens (body (R.parser rule.now) cursor.old) result cursor.new }
{
    let mut found = Items::new(alloc);
    symbol(cursor, b'{')?;
    for _turn in 0..cursor.left() {
        if sees(cursor, b'}') {
            cursor.skip();
            return Ok(found);
        }
        if sees(cursor, b';') {
            cursor.skip();
            continue;
        }
        found.push(rule.read(alloc, cursor)?)?;
        ending(cursor)?;
    }
    Err(cursor.fault(ConfigKind::Unexpected))
}
