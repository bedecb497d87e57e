// The checks of an expression's calls and comparisons.
ghost use Rattle.std.specs.Prelude.{◌≡◌, IfOk, IfErr, OnOk};
ghost use Rattle.sg_outside.specs.World.{OnlyBuilds};
ghost use Rattle.sg_pattern.specs.Pattern.{IsValidPattern, pattern_of};
ghost use Rattle.sg_pattern.specs.Builds.{RefusesNone, RefusesText};
ghost use Rattle.sg_filter.specs.declared.check.Predicate.TheVariants as check;

use crate::check::{FieldSearch, Predicate};
use sg_device::Name;
use sg_lex::Cmp;
use sg_pattern::{BuildRefusal, Builder, Matcher, PatternText};
use sg_template::Template;
use sqlite_items::Items;
use std::alloc::{AllocError, Global};

pub(crate) fn copied_ranges(
    alloc: Global,
    ranges: &Items<(u8, u8)>,
) -> Result<Items<(u8, u8)>, AllocError>
    ensures { IfOk result (λ copy. copy ≡ ranges.now) }
{
    Items::from_slice(alloc, ranges.as_slice())
}

pub(crate) fn copied_names(alloc: Global, names: &Items<Name>) -> Result<Items<Name>, AllocError>
    ensures { IfOk result (λ copy. copy ≡ names.now) }
{
    let mut copy = Items::new(alloc);
    for name in names.as_slice() {
        copy.push(name.copy()?)?;
    }
    Ok(copy)
}

pub(crate) fn field<B: Builder>(
    alloc: Global,
    builder: &mut B,
    name: &Name,
    pattern: &PatternText,
) -> Result<Predicate, BuildRefusal>
    ensures ok { IfOk result (λ made. made
        ≡ check.Field (record { name = name.now; matcher = pattern_of pattern.now })) }
    ensures valid { IfOk result (λ _. IsValidPattern (pattern_of pattern.now)) }
    ensures stays { OnOk result (RefusesNone (B.state builder.old) (B.state builder.new)) }
    ensures refused { IfErr result
        (RefusesText (B.state builder.old) (B.state builder.new) pattern.now) }
    ensures only { OnlyBuilds (B.state builder.old) (B.state builder.new) }
{
    let name = name.copy()?;
    match Matcher::of_text(alloc, builder, pattern) {
        Ok(matcher) => Ok(Predicate::Field(FieldSearch { name, matcher })),
        Err(refusal) => Err(refusal),
    }
}

pub(crate) fn comparison(
    alloc: Global,
    left: &Template,
    cmp: Cmp,
    right: &Template,
) -> Result<Predicate, AllocError>
    ensures { IfOk result (λ made. made ≡ check.Compare left.now cmp right.now) }
{
    Ok(Predicate::Compare {
        left: left.copy(alloc)?,
        cmp,
        right: right.copy(alloc)?,
    })
}
