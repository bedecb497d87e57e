// Statements, behind their words.
ghost use Rattle.std.specs.Prelude.{◌≡◌};
ghost use Rattle.sg_parse_base.specs.Input.{ReadsTokens};
ghost use Rattle.sg_parse_obj.specs.Objects as spec;
ghost use Rattle.sg_parse_expr.specs.Rewrites.{rewrite_call as rewrite_at};

use crate::driver::{GlobalOption, Side, drivers};
use crate::object::Object;
use crate::parsers::parser_calls;
use crate::templates::{TemplateRule, last_text};
use sg_lex::ConfigKind;
use sg_parse_base::{
    Cursor, ItemRule, ParseStop, Spot, body, ending, name, sees, sees_word, symbol,
};
use sg_parse_expr::{Call, Class, RawExpr, expression, rewrite_call, value};
use sqlite_items::Items;
use std::alloc::Global;

/// The expression of a filter statement, in braces. Groups in it may be nested so deep.
#[tactic(auto, unfolding(crate::specs::Objects::filter_body))]
pub fn filter_body(
    alloc: Global,
    cursor: &mut Cursor<'_>,
    depth: usize,
) -> Result<RawExpr, ParseStop>
    ensures { ReadsTokens (spec.filter_body depth cursor.old) result cursor.new }
{
    symbol(cursor, b'{')?;
    let expr = expression(alloc, cursor, depth)?;
    ending(cursor)?;
    symbol(cursor, b'}')?;
    Ok(expr)
}

#[derive(Drop)]
struct OneRewrite {
    depth: usize,
}

impl ItemRule for OneRewrite {
    type Item = Call;

    ghost parser = { λ rule. rewrite_at rule.depth };

    fn read(&self, alloc: Global, cursor: &mut Cursor<'_>) -> Result<Call, ParseStop> {
        rewrite_call(alloc, cursor, self.depth)
    }
}

/// The rewrites of a rewrite statement, in braces. Groups in their conditions may be nested so deep.
#[tactic(auto, unfolding(crate::specs::Objects::rewrites))]
pub fn rewrites(
    alloc: Global,
    cursor: &mut Cursor<'_>,
    depth: usize,
) -> Result<Items<Call>, ParseStop>
    ensures { ReadsTokens (spec.rewrites depth cursor.old) result cursor.new }
{
    body(alloc, cursor, &OneRewrite { depth })
}

#[tactic(auto, unfolding(crate::specs::Objects::options))]
fn options(alloc: Global, cursor: &mut Cursor<'_>) -> Result<Object, ParseStop>
    ensures { ReadsTokens (spec.options cursor.old) result cursor.new }
{
    Ok(Object::Options(body(alloc, cursor, &GlobalOption)?))
}

#[tactic(auto, unfolding(crate::specs::Objects::source))]
fn source(alloc: Global, cursor: &mut Cursor<'_>) -> Result<Object, ParseStop>
    ensures { ReadsTokens (spec.source cursor.old) result cursor.new }
{
    let name = name(cursor)?;
    let drivers = drivers(alloc, cursor, Side::Source)?;
    Ok(Object::Source { name, drivers })
}

#[tactic(auto, unfolding(crate::specs::Objects::destination))]
fn destination(alloc: Global, cursor: &mut Cursor<'_>) -> Result<Object, ParseStop>
    ensures { ReadsTokens (spec.destination cursor.old) result cursor.new }
{
    let name = name(cursor)?;
    let drivers = drivers(alloc, cursor, Side::Destination)?;
    Ok(Object::Destination { name, drivers })
}

#[tactic(auto, unfolding(crate::specs::Objects::filter))]
fn filter(alloc: Global, cursor: &mut Cursor<'_>, depth: usize) -> Result<Object, ParseStop>
    ensures { ReadsTokens (spec.filter depth cursor.old) result cursor.new }
{
    let name = name(cursor)?;
    let expr = filter_body(alloc, cursor, depth)?;
    Ok(Object::Filter { name, expr })
}

#[tactic(auto, unfolding(crate::specs::Objects::rewrite))]
fn rewrite(alloc: Global, cursor: &mut Cursor<'_>, depth: usize) -> Result<Object, ParseStop>
    ensures { ReadsTokens (spec.rewrite depth cursor.old) result cursor.new }
{
    let name = name(cursor)?;
    let calls = rewrites(alloc, cursor, depth)?;
    Ok(Object::Rewrite { name, calls })
}

#[tactic(auto, unfolding(crate::specs::Objects::parser))]
fn parser(alloc: Global, cursor: &mut Cursor<'_>) -> Result<Object, ParseStop>
    ensures { ReadsTokens (spec.parser cursor.old) result cursor.new }
{
    let name = name(cursor)?;
    let calls = parser_calls(alloc, cursor)?;
    Ok(Object::Parser { name, calls })
}

#[tactic(auto, unfolding(crate::specs::Objects::template_block))]
fn template_block(alloc: Global, cursor: &mut Cursor<'_>, name: Spot) -> Result<Object, ParseStop>
    ensures { ReadsTokens (spec.template_block name cursor.old) result cursor.new }
{
    let items = body(alloc, cursor, &TemplateRule)?;
    let text = last_text(items);
    Ok(Object::Template { name, text })
}

#[tactic(auto, unfolding(crate::specs::Objects::template_text))]
fn template_text(alloc: Global, cursor: &mut Cursor<'_>, name: Spot) -> Result<Object, ParseStop>
    ensures { ReadsTokens (spec.template_text name cursor.old) result cursor.new }
{
    let text = Some(value(alloc, cursor, Class::Text)?);
    Ok(Object::Template { name, text })
}

#[tactic(auto, unfolding(crate::specs::Objects::template))]
fn template(alloc: Global, cursor: &mut Cursor<'_>) -> Result<Object, ParseStop>
    ensures { ReadsTokens (spec.template cursor.old) result cursor.new }
{
    let name = name(cursor)?;
    if sees(cursor, b'{') {
        return template_block(alloc, cursor, name);
    }
    template_text(alloc, cursor, name)
}

/// A statement, in which groups may be nested so deep.
#[tactic(auto, unfolding(crate::specs::Objects::object_in))]
pub fn object(alloc: Global, cursor: &mut Cursor<'_>, depth: usize) -> Result<Object, ParseStop>
    ensures { ReadsTokens (spec.object_in depth cursor.old) result cursor.new }
{
    if sees_word(cursor, b"source") {
        cursor.skip();
        return source(alloc, cursor);
    }
    if sees_word(cursor, b"destination") {
        cursor.skip();
        return destination(alloc, cursor);
    }
    if sees_word(cursor, b"filter") {
        cursor.skip();
        return filter(alloc, cursor, depth);
    }
    if sees_word(cursor, b"rewrite") {
        cursor.skip();
        return rewrite(alloc, cursor, depth);
    }
    if sees_word(cursor, b"template") {
        cursor.skip();
        return template(alloc, cursor);
    }
    if sees_word(cursor, b"options") {
        cursor.skip();
        return options(alloc, cursor);
    }
    if sees_word(cursor, b"parser") {
        cursor.skip();
        return parser(alloc, cursor);
    }
    Err(cursor.fault(ConfigKind::Unexpected))
}
