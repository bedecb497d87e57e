// The patterns of log paths, in the order of the tree.
ghost use Rattle.std.specs.Prelude.{◌≡◌, [], ◌∷◌, ◌++◌, List, map, IfOk, OnOk, MatchOption};
ghost use Rattle.sg_filter.specs.Patterns.{joined, patterns_within};
ghost use Rattle.sg_filter.specs.declared.expr.Expr.{Expr as AnExpr};
ghost use Rattle.sg_filter.specs.declared.expr.Expr.TheVariants as expr;
ghost use Rattle.sg_table.specs.Listing.{ListsPatterns, PushesPatterns, all_patterns, waiting_patterns};
ghost use Rattle.sg_table.specs.Patterns.{branch_patterns, choices_patterns, condition_patterns, element_patterns, list_patterns, op_patterns, other_patterns, path_patterns, patterns_in, rule_patterns, rules_patterns, siblings_patterns};

use sg_filter::Expr;
use sg_pattern::PatternText;
use sg_rewrite::Op;
use sg_tree::{Element, Forest, Path, RewriteRule};
use sqlite_items::at;
use std::alloc::{AllocError, Global};

/// What is still to be listed. In an expression names are followed so many deep.
#[derive(Drop)]
pub(crate) enum ListingTask<'f> {
    Pattern(&'f PatternText),
    One { expr: &'f Expr, depth: usize },
    Several { exprs: &'f [Expr], depth: usize },
    Rules(&'f [RewriteRule]),
    Elements(&'f [Element]),
    Branches(&'f [(Expr, Vec<Element>)]),
    Paths(&'f [Path]),
}

#[derive(Drop)]
pub(crate) struct PatternListing<'f> {
    pub(crate) found: Vec<&'f PatternText>,
    /// What is still to be listed, the first last.
    pub(crate) waiting: Vec<ListingTask<'f>>,
}

// The first, and those behind it.
fn first_of<T>(items: &[T]) -> Option<(&T, &[T])>
    ensures { MatchOption result (items.now ≡ [])
        (λ found. items.now ≡ found.0.now ∷ found.1.now) }
{
    match items.split_first() {
        Some((first, rest)) => Some((first, rest)),
        None => None,
    }
}

impl<'f> PatternListing<'f> {
    fn push(&mut self, one: ListingTask<'f>) -> Result<(), AllocError>
        ensures { OnOk result ((self.new.waiting.items ≡ self.old.waiting.items ++ one.entry ∷ [])
            × (self.new.found ≡ self.old.found)) }
    {
        self.waiting.push(one)?;
        Ok(())
    }

    fn push_condition(
        &mut self,
        named: &'f [Expr],
        condition: &'f Option<Expr>,
    ) -> Result<(), AllocError>
        ensures { OnOk result (PushesPatterns named.now
            (condition_patterns named.now condition.now) self.old self.new) }
    {
        match condition {
            Some(expr) => {
                let depth = named.len();
                self.push(ListingTask::One { expr, depth })?;
                Ok(())
            }
            None => Ok(()),
        }
    }

    fn push_op(&mut self, op: &'f Op) -> Result<(), AllocError>
        ensures { OnOk result ((named : List AnExpr)
            → PushesPatterns named (op_patterns op.now) self.old self.new) }
    {
        match op {
            Op::Subst { pattern, .. } => {
                self.push(ListingTask::Pattern(pattern))?;
                Ok(())
            }
            Op::Set { .. } => Ok(()),
            Op::Unset { .. } => Ok(()),
            Op::GroupSet { .. } => Ok(()),
            Op::GroupUnset { .. } => Ok(()),
            Op::SetTag { .. } => Ok(()),
            Op::ClearTag { .. } => Ok(()),
        }
    }

    fn push_rule(&mut self, named: &'f [Expr], rule: &'f RewriteRule) -> Result<(), AllocError>
        ensures { OnOk result (
            PushesPatterns named.now (rule_patterns named.now rule.now) self.old self.new) }
    {
        self.push_op(&rule.op)?;
        self.push_condition(named, &rule.condition)?;
        Ok(())
    }

    fn push_other(&mut self, other: &'f Option<Vec<Element>>) -> Result<(), AllocError>
        ensures { OnOk result ((named : List AnExpr)
            → PushesPatterns named (other_patterns named other.now) self.old self.new) }
    {
        match other {
            Some(elements) => {
                self.push(ListingTask::Elements(elements.as_slice()))?;
                Ok(())
            }
            None => Ok(()),
        }
    }

    fn push_choice(
        &mut self,
        branches: &'f [(Expr, Vec<Element>)],
        other: &'f Option<Vec<Element>>,
    ) -> Result<(), AllocError>
        ensures { OnOk result ((named : List AnExpr) → PushesPatterns named
            (choices_patterns named branches.now ++ other_patterns named other.now)
            self.old self.new) }
    {
        self.push_other(other)?;
        self.push(ListingTask::Branches(branches))?;
        Ok(())
    }

    fn push_element(&mut self, named: &'f [Expr], element: &'f Element) -> Result<(), AllocError>
        ensures { OnOk result (
            PushesPatterns named.now (element_patterns named.now element.now) self.old self.new) }
    {
        match element {
            Element::Filter(expr) => {
                let depth = named.len();
                self.push(ListingTask::One { expr, depth })?;
                Ok(())
            }
            Element::Rewrite(rule) => {
                self.push_rule(named, rule)?;
                Ok(())
            }
            Element::Parse(_) => Ok(()),
            Element::Deliver(_) => Ok(()),
            Element::Junction(channels) => {
                self.push(ListingTask::Paths(channels.as_slice()))?;
                Ok(())
            }
            Element::If { branches, other } => {
                self.push_choice(branches.as_slice(), other)?;
                Ok(())
            }
        }
    }

    // The expression of a name.
    fn push_named(&mut self, named: &'f [Expr], place: u32, depth: usize) -> Result<(), AllocError>
        ensures { OnOk result (PushesPatterns named.now
            (patterns_within depth named.now (expr.Named place)) self.old self.new) }
    {
        if depth == 0 {
            return Ok(());
        }
        match at(named, place as usize) {
            None => Ok(()),
            Some(one) => {
                self.push(ListingTask::One {
                    expr: one,
                    depth: depth - 1,
                })?;
                Ok(())
            }
        }
    }

    fn open_expr(
        &mut self,
        named: &'f [Expr],
        expr: &'f Expr,
        depth: usize,
    ) -> Result<(), AllocError>
        ensures { OnOk result (
            PushesPatterns named.now (patterns_within depth named.now expr.now) self.old self.new) }
    {
        match expr {
            Expr::Field { pattern, .. } => {
                self.push(ListingTask::Pattern(pattern))?;
                Ok(())
            }
            Expr::Named(place) => {
                self.push_named(named, *place, depth)?;
                Ok(())
            }
            Expr::And(terms) => {
                let exprs = terms.as_slice();
                self.push(ListingTask::Several { exprs, depth })?;
                Ok(())
            }
            Expr::Or(terms) => {
                let exprs = terms.as_slice();
                self.push(ListingTask::Several { exprs, depth })?;
                Ok(())
            }
            Expr::Not(term) => {
                let expr = term.get();
                self.push(ListingTask::One { expr, depth })?;
                Ok(())
            }
            Expr::Facility(_) => Ok(()),
            Expr::Level(_) => Ok(()),
            Expr::Tags(_) => Ok(()),
            Expr::Compare { .. } => Ok(()),
        }
    }

    fn open_exprs(&mut self, exprs: &'f [Expr], depth: usize) -> Result<(), AllocError>
        ensures { OnOk result ((named : List AnExpr)
            → PushesPatterns named (joined (map (patterns_within depth named) exprs.now))
            self.old self.new) }
    {
        match first_of(exprs) {
            None => Ok(()),
            Some((expr, exprs)) => {
                self.push(ListingTask::Several { exprs, depth })?;
                self.push(ListingTask::One { expr, depth })?;
                Ok(())
            }
        }
    }

    fn open_rules(&mut self, named: &'f [Expr], rules: &'f [RewriteRule]) -> Result<(), AllocError>
        ensures { OnOk result (
            PushesPatterns named.now (rules_patterns named.now rules.now) self.old self.new) }
    {
        match first_of(rules) {
            None => Ok(()),
            Some((rule, rules)) => {
                self.push(ListingTask::Rules(rules))?;
                self.push_rule(named, rule)?;
                Ok(())
            }
        }
    }

    fn open_elements(
        &mut self,
        named: &'f [Expr],
        elements: &'f [Element],
    ) -> Result<(), AllocError>
        ensures { OnOk result (
            PushesPatterns named.now (list_patterns named.now elements.now) self.old self.new) }
    {
        match first_of(elements) {
            None => Ok(()),
            Some((element, elements)) => {
                self.push(ListingTask::Elements(elements))?;
                self.push_element(named, element)?;
                Ok(())
            }
        }
    }

    fn push_branch(
        &mut self,
        named: &'f [Expr],
        branch: &'f (Expr, Vec<Element>),
    ) -> Result<(), AllocError>
        ensures { OnOk result (
            PushesPatterns named.now (branch_patterns named.now branch.now) self.old self.new) }
    {
        let depth = named.len();
        self.push(ListingTask::Elements(branch.1.as_slice()))?;
        self.push(ListingTask::One {
            expr: &branch.0,
            depth,
        })?;
        Ok(())
    }

    fn open_branches(
        &mut self,
        named: &'f [Expr],
        branches: &'f [(Expr, Vec<Element>)],
    ) -> Result<(), AllocError>
        ensures { OnOk result (
            PushesPatterns named.now (choices_patterns named.now branches.now) self.old self.new) }
    {
        match first_of(branches) {
            None => Ok(()),
            Some((branch, branches)) => {
                self.push(ListingTask::Branches(branches))?;
                self.push_branch(named, branch)?;
                Ok(())
            }
        }
    }

    fn push_path(&mut self, path: &'f Path) -> Result<(), AllocError>
        ensures { OnOk result ((named : List AnExpr)
            → PushesPatterns named (path_patterns named path.now) self.old self.new) }
    {
        self.push(ListingTask::Paths(path.embedded.as_slice()))?;
        self.push(ListingTask::Elements(path.elements.as_slice()))?;
        Ok(())
    }

    fn open_paths(&mut self, paths: &'f [Path]) -> Result<(), AllocError>
        ensures { OnOk result ((named : List AnExpr)
            → PushesPatterns named (siblings_patterns named paths.now) self.old self.new) }
    {
        match first_of(paths) {
            None => Ok(()),
            Some((path, paths)) => {
                self.push(ListingTask::Paths(paths))?;
                self.push_path(path)?;
                Ok(())
            }
        }
    }

    fn list(&mut self, pattern: &'f PatternText) -> Result<(), AllocError>
        ensures { OnOk result ((named : List AnExpr)
            → ListsPatterns named (pattern.now ∷ []) self.old self.new) }
    {
        self.found.push(pattern)?;
        Ok(())
    }

    fn turn(&mut self, named: &'f [Expr], one: ListingTask<'f>) -> Result<(), AllocError>
        ensures { OnOk result (
            ListsPatterns named.now (waiting_patterns named.now one.entry) self.old self.new) }
    {
        match one {
            ListingTask::Pattern(pattern) => {
                self.list(pattern)?;
                Ok(())
            }
            ListingTask::One { expr, depth } => {
                self.open_expr(named, expr, depth)?;
                Ok(())
            }
            ListingTask::Several { exprs, depth } => {
                self.open_exprs(exprs, depth)?;
                Ok(())
            }
            ListingTask::Rules(rules) => {
                self.open_rules(named, rules)?;
                Ok(())
            }
            ListingTask::Elements(elements) => {
                self.open_elements(named, elements)?;
                Ok(())
            }
            ListingTask::Branches(branches) => {
                self.open_branches(named, branches)?;
                Ok(())
            }
            ListingTask::Paths(paths) => {
                self.open_paths(paths)?;
                Ok(())
            }
        }
    }
}

fn begun<'f>(alloc: Global, forest: &'f Forest) -> Result<PatternListing<'f>, AllocError>
    ensures { IfOk result (λ listing.
        all_patterns forest.now.filters.items listing ≡ patterns_in forest.now) }
{
    let mut listing = PatternListing {
        found: Vec::new(alloc),
        waiting: Vec::new(alloc),
    };
    let exprs = forest.filters.as_slice();
    let depth = exprs.len();
    listing.push(ListingTask::Paths(forest.paths.as_slice()))?;
    listing.push(ListingTask::Rules(forest.rewrites.as_slice()))?;
    listing.push(ListingTask::Several { exprs, depth })?;
    Ok(listing)
}

/// The patterns of a tree, those that several filters name once for each: those of the filters with
/// names and of the rewrites with names, and then those of the statements.
pub(crate) fn listed<'f>(
    alloc: Global,
    forest: &'f Forest,
) -> Result<Vec<&'f PatternText>, AllocError>
    ensures { IfOk result
        (λ found. map (λ pattern. pattern.now) found.items ≡ patterns_in forest.now) }
{
    let named = forest.filters.as_slice();
    let mut listing = begun(alloc, forest)?;
    'turns: for _turn in 0..u64::MAX {
        match listing.waiting.pop() {
            None => return Ok(listing.found),
            Some(one) => listing.turn(named, one)?,
        }
    }
    Err(AllocError)
}
