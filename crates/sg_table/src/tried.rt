// The first of the patterns that are refused, in the order of the text.
ghost use Rattle.std.specs.Prelude.{◌≡◌, ◌∷◌, [], map, IfOk, OnOk, IfErr};
ghost use Rattle.sg_outside.specs.World.{OnlyBuilds};
ghost use Rattle.sg_pattern.specs.Builds.{calls_by};
ghost use Rattle.sg_table.specs.Patterns.{patterns_in};
ghost use Rattle.sg_table.specs.Refused.{TriesForest};
ghost use Rattle.sg_table.specs.Tried.{IsBadOne, IsTextOrder, Tries, TriesList, first_of};

use crate::listing::listed;
use sg_lex::Line;
use sg_pattern::{BuildRefusal, Builder, PatternText, try_text};
use sg_tree::{Forest, PathRefusal};
use std::alloc::{AllocError, Global};

// The first of those of which some was refused for its size.
fn first_large(large: &mut Option<Line>, line: Line)
    ensures { large.new ≡ first_of large.old line }
{
    if large.is_none() {
        *large = Some(line);
    }
}

// Tries one more. Behind one that is refused for its size, others are tried as well.
fn try_next<B: Builder>(
    alloc: Global,
    builder: &mut B,
    pattern: &PatternText,
    large: &mut Option<Line>,
) -> Result<(), PathRefusal>
    ensures tries { OnOk result (Tries B.state (calls_by B.state B.build_step) builder.old
        builder.new (pattern.now ∷ []) large.old large.new) }
    ensures bad { IfErr result (IsBadOne pattern.now) }
    ensures only { OnlyBuilds (B.state builder.old) (B.state builder.new) }
{
    match try_text(alloc, builder, pattern) {
        Ok(()) => Ok(()),
        Err(BuildRefusal::BadPattern(line)) => Err(PathRefusal::BadPattern(line)),
        Err(BuildRefusal::TooLarge(line)) => {
            first_large(large, line);
            Ok(())
        }
        Err(BuildRefusal::NoMemory) => Err(PathRefusal::NoMemory),
    }
}

fn try_all<B: Builder>(
    alloc: Global,
    builder: &mut B,
    patterns: &[&PatternText],
) -> Result<(), PathRefusal>
    ensures tries { TriesList B.state (calls_by B.state B.build_step) builder.old builder.new
        (map (λ pattern. pattern.now) patterns.now) result }
    ensures only { OnlyBuilds (B.state builder.old) (B.state builder.new) }
{
    let mut large = None;
    for pattern in patterns {
        match try_next(alloc, builder, pattern, &mut large) {
            Ok(()) => {}
            Err(refusal) => return Err(refusal),
        }
    }
    match large {
        Some(line) => Err(PathRefusal::PatternTooLarge(line)),
        None => Ok(()),
    }
}

fn sort(patterns: &mut Vec<&PatternText>) -> Result<(), AllocError>
    ensures { OnOk result (IsTextOrder (map (λ pattern. pattern.now) patterns.old.items)
        (map (λ pattern. pattern.now) patterns.new.items)) }
{
    patterns.sort_by_key(|pattern| pattern.line.at)?;
    Ok(())
}

// The patterns of a tree, in the order of the text.
fn sorted<'f>(alloc: Global, forest: &'f Forest) -> Result<Vec<&'f PatternText>, AllocError>
    ensures { IfOk result (λ found.
        IsTextOrder (patterns_in forest.now) (map (λ pattern. pattern.now) found.items)) }
{
    let mut patterns = listed(alloc, forest)?;
    sort(&mut patterns)?;
    Ok(patterns)
}

/// Tries each pattern of a tree, in the order of the text. It tells the first that is no pattern, or else the
/// first that the builder refused for its size.
pub(crate) fn try_forest<B: Builder>(
    alloc: Global,
    builder: &mut B,
    forest: &Forest,
) -> Result<(), PathRefusal>
    ensures tries { TriesForest B.state (calls_by B.state B.build_step) builder.old builder.new
        (patterns_in forest.now) result }
    ensures only { OnlyBuilds (B.state builder.old) (B.state builder.new) }
{
    match sorted(alloc, forest) {
        Ok(patterns) => try_all(alloc, builder, &patterns),
        Err(_error) => Err(PathRefusal::NoMemory),
    }
}
