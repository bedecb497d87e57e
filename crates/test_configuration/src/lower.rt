// What filters and rewrites are meant to be.
ghost use Rattle.std.specs.Prelude.{◌<◌, ◌^◌, length};

mod say;

use sg_lower::{lower_expression, lower_rewrite};
use sg_names::{Names, names_of};
use sg_parse_expr::{Call, RawExpr};
use sg_parse_obj::Object;
use sg_parse_text::Statement;
use std::alloc::{AllocError, Global};
use std::io;

fn filter(
    alloc: Global,
    names: &Names,
    expr: &RawExpr,
    out: &mut Vec<u8>,
) -> Result<(), AllocError> {
    let lowered = lower_expression(alloc, names, expr)?;
    say::expr(alloc, out, &lowered)
}

fn rewrite(alloc: Global, names: &Names, call: &Call, out: &mut Vec<u8>) -> Result<(), AllocError> {
    let lowered = lower_rewrite(alloc, names, call)?;
    say::rewrite(alloc, out, &lowered)
}

fn rewrites(
    alloc: Global,
    names: &Names,
    calls: &[Call],
    out: &mut Vec<u8>,
) -> Result<(), AllocError> {
    for call in calls {
        rewrite(alloc, names, call, out)?;
        out.extend_from_slice(b";")?;
    }
    Ok(())
}

fn statement(
    alloc: Global,
    names: &Names,
    statement: &Statement,
    out: &mut Vec<u8>,
) -> Result<(), AllocError> {
    match statement {
        Statement::Object(Object::Filter { expr, .. }) => {
            filter(alloc, names, expr, out)?;
            out.extend_from_slice(b";")
        }
        Statement::Object(Object::Rewrite { calls, .. }) => {
            rewrites(alloc, names, calls.as_slice(), out)
        }
        _ => Ok(()),
    }
}

/// What the filters and rewrites of these statements are meant to be.
pub(crate) fn answer(alloc: Global, statements: &[Statement]) -> io::Result<Vec<u8>>
    requires { length statements.now < 2 ^ 32 }
{
    let (names, _) = names_of(alloc, statements)?;
    let mut out = Vec::new(alloc);
    for one in statements {
        statement(alloc, &names, one, &mut out)?;
    }
    Ok(out)
}
