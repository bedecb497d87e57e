// The table of an expression, made by a work list from its last check to its first.
ghost use Rattle.std.specs.Prelude.{◌≡◌, ◌+◌, ◌<◌, [], ◌∷◌, ◌++◌, length, IfOk, IfErr, OnOk, MatchOption};
ghost use Rattle.sg_outside.specs.World.{OnlyBuilds};
ghost use Rattle.sg_pattern.specs.Builds.{RefusesNone};
ghost use Rattle.sg_filter.specs.declared.work.CompileFrame.TheVariants as frame;
ghost use Rattle.sg_filter.specs.declared.node.Node.{Node as ANode};
ghost use Rattle.sg_filter.specs.Patterns.{RefusesAny, RefusesExpr};
ghost use Rattle.sg_filter.specs.Work.{TurnsFrame, WorkLeads, frame_patterns};

use crate::check::Predicate;
use crate::copy::{comparison, copied_names, copied_ranges, field};
use crate::expr::Expr;
use crate::node::Node;
use sg_pattern::{BuildRefusal, Builder};
use sqlite_items::at;
use std::alloc::{AllocError, Global};

/// What waits. `depth` says how many names deep it may still go.
#[derive(Drop)]
pub(crate) enum CompileFrame<'e> {
    /// An expression, and what follows it.
    One {
        expr: &'e Expr,
        depth: usize,
        yes: u32,
        no: u32,
    },
    /// Expressions that all must hold, before what was made last.
    All {
        terms: &'e [Expr],
        depth: usize,
        no: u32,
    },
    /// Expressions of which one must hold, before what was made last.
    Any {
        terms: &'e [Expr],
        depth: usize,
        yes: u32,
    },
}

#[derive(Drop)]
pub(crate) struct CompileWork<'e> {
    pub(crate) nodes: Vec<Node>,
    /// The place of what was made last.
    pub(crate) last: u32,
    /// What is to be done, the first last.
    pub(crate) frames: Vec<CompileFrame<'e>>,
}

impl<'e> CompileWork<'e> {
    fn push(&mut self, frame: CompileFrame<'e>) -> Result<(), AllocError>
        ensures { OnOk result ((self.new.frames.items ≡ self.old.frames.items ++ frame.entry ∷ [])
            × (self.new.nodes ≡ self.old.nodes) × (self.new.last ≡ self.old.last)) }
    {
        self.frames.push(frame)?;
        Ok(())
    }

    fn push_both(
        &mut self,
        below: CompileFrame<'e>,
        frame: CompileFrame<'e>,
    ) -> Result<(), AllocError>
        ensures { OnOk result (
            (self.new.frames.items ≡ self.old.frames.items ++ below.entry ∷ frame.entry ∷ [])
            × (self.new.nodes ≡ self.old.nodes) × (self.new.last ≡ self.old.last)) }
    {
        self.push(below)?;
        self.push(frame)?;
        Ok(())
    }

    fn ask(&mut self, check: Predicate, yes: u32, no: u32) -> Result<(), AllocError>
        ensures { OnOk result ((self.new.nodes.items
            ≡ self.old.nodes.items ++ (record { check = check; yes = yes; no = no }) ∷ [])
            × (self.new.last ≡ length self.old.nodes.items + 2)
            × (self.new.frames ≡ self.old.frames)) }
    {
        let count = self.nodes.len();
        if count >= u32::MAX as usize - 2 {
            return Err(AllocError);
        }
        self.nodes.push(Node { check, yes, no })?;
        self.last = count as u32 + 2;
        Ok(())
    }

    fn turn<B: Builder>(
        &mut self,
        alloc: Global,
        builder: &mut B,
        named: &'e [Expr],
        frame: CompileFrame<'e>,
    ) -> Result<(), BuildRefusal>
        ensures turns { OnOk result (TurnsFrame named.now frame.entry self.old self.new) }
        ensures stays { OnOk result (RefusesNone (B.state builder.old) (B.state builder.new)) }
        ensures refused { IfErr result (RefusesAny (B.state builder.old) (B.state builder.new)
            (frame_patterns named.now frame.entry)) }
        ensures only { OnlyBuilds (B.state builder.old) (B.state builder.new) }
    {
        match frame {
            CompileFrame::One {
                expr,
                depth,
                yes,
                no,
            } => match expr {
                Expr::Facility(ranges) => {
                    let check = Predicate::Facility(copied_ranges(alloc, ranges)?);
                    self.ask(check, yes, no)?;
                    Ok(())
                }
                Expr::Level(ranges) => {
                    let check = Predicate::Level(copied_ranges(alloc, ranges)?);
                    self.ask(check, yes, no)?;
                    Ok(())
                }
                Expr::Tags(tags) => {
                    let check = Predicate::Tags(copied_names(alloc, tags)?);
                    self.ask(check, yes, no)?;
                    Ok(())
                }
                Expr::Compare { left, cmp, right } => {
                    let check = comparison(alloc, left, *cmp, right)?;
                    self.ask(check, yes, no)?;
                    Ok(())
                }
                Expr::Field { name, pattern } => match field(alloc, builder, name, pattern) {
                    Err(refusal) => Err(refusal),
                    Ok(check) => {
                        self.ask(check, yes, no)?;
                        Ok(())
                    }
                },
                Expr::Named(place) => {
                    self.last = no;
                    if depth == 0 {
                        return Ok(());
                    }
                    match at(named, *place as usize) {
                        None => Ok(()),
                        Some(expr) => {
                            self.push(CompileFrame::One {
                                expr,
                                depth: depth - 1,
                                yes,
                                no,
                            })?;
                            Ok(())
                        }
                    }
                }
                Expr::And(terms) => {
                    self.last = yes;
                    self.push(CompileFrame::All {
                        terms: terms.as_slice(),
                        depth,
                        no,
                    })?;
                    Ok(())
                }
                Expr::Or(terms) => {
                    self.last = no;
                    self.push(CompileFrame::Any {
                        terms: terms.as_slice(),
                        depth,
                        yes,
                    })?;
                    Ok(())
                }
                Expr::Not(term) => {
                    self.push(CompileFrame::One {
                        expr: term.get(),
                        depth,
                        yes: no,
                        no: yes,
                    })?;
                    Ok(())
                }
            },
            CompileFrame::All { terms, depth, no } => match last_of(terms) {
                None => Ok(()),
                Some((terms, expr)) => {
                    let yes = self.last;
                    self.push_both(
                        CompileFrame::All { terms, depth, no },
                        CompileFrame::One {
                            expr,
                            depth,
                            yes,
                            no,
                        },
                    )?;
                    Ok(())
                }
            },
            CompileFrame::Any { terms, depth, yes } => match last_of(terms) {
                None => Ok(()),
                Some((terms, expr)) => {
                    let no = self.last;
                    self.push_both(
                        CompileFrame::Any { terms, depth, yes },
                        CompileFrame::One {
                            expr,
                            depth,
                            yes,
                            no,
                        },
                    )?;
                    Ok(())
                }
            },
        }
    }
}

// The last one, and those before it.
fn last_of(terms: &[Expr]) -> Option<(&[Expr], &Expr)>
    ensures { MatchOption result (terms.now ≡ [])
        (λ found. terms.now ≡ found.0.now ++ found.1.now ∷ []) }
{
    match terms.split_last() {
        Some((last, front)) => Some((front, last)),
        None => None,
    }
}

/// The table, and the place of the expression in it.
pub(crate) fn made<'e, B: Builder>(
    alloc: Global,
    builder: &mut B,
    expr: &'e Expr,
    named: &'e [Expr],
) -> Result<CompileWork<'e>, BuildRefusal>
    ensures leads { IfOk result (λ work. WorkLeads named.now expr.now work
        × (work.frames.items ≡ [])) }
    ensures stays { OnOk result (RefusesNone (B.state builder.old) (B.state builder.new)) }
    ensures refused { IfErr result
        (RefusesExpr (B.state builder.old) (B.state builder.new) named.now expr.now) }
    ensures only { OnlyBuilds (B.state builder.old) (B.state builder.new) }
{
    let mut work = CompileWork {
        nodes: Vec::new(alloc),
        last: 0,
        frames: Vec::new(alloc),
    };
    work.push(CompileFrame::One {
        expr,
        depth: named.len(),
        yes: 1,
        no: 0,
    })?;
    'turns: for _turn in 0..u64::MAX {
        match work.frames.pop() {
            None => return Ok(work),
            Some(frame) => match work.turn(alloc, builder, named, frame) {
                Ok(()) => {}
                Err(refusal) => return Err(refusal),
            },
        }
    }
    Err(BuildRefusal::NoMemory)
}
