// Filters.
ghost use Rattle.std.specs.Prelude.{◌≡◌, IfOk, IfErr, OnOk};
ghost use Rattle.sg_outside.specs.World.{OnlyBuilds};
ghost use Rattle.sg_pattern.specs.Builds.{RefusesNone};
ghost use Rattle.sg_filter.specs.Decisions.{decides, decision_of};
ghost use Rattle.sg_filter.specs.Patterns.{AreValid, RefusesExpr, patterns_of};

use crate::Expr;
use crate::check::TextRoom;
use crate::node::{Node, decided, shared};
use crate::work::made;
use sg_msg::Message;
use sg_pattern::{BuildRefusal, Builder};
use std::alloc::{AllocError, Global};
use std::marker::Model;

/// An expression with its matchers, seen as what it asks of a message and what it answers.
pub struct Filter {
    nodes: Vec<Node>,
    start: u32,
    room: TextRoom,
}

impl Drop for Filter {
    fn drop(self) {
        let Filter {
            nodes: _nodes,
            start: _start,
            room: _room,
        } = self;
    }
}

impl Model for Filter {
    ghost use Rattle.sg_filter.specs.Decisions.{Decision};
    ghost use Rattle.sg_filter.specs.Codes.{decision_code};

    ghost Value = { Decision };

    ghost coded = { decision_code };

    ghost use Rattle.sg_filter.specs.Table.{IsNodeTable, decision_at};

    ghost view = { λ f. decision_at f.nodes.items f.start };

    ghost invariant = { λ f. IsNodeTable f.nodes.items };
}

impl Filter {
    /// Makes the filter of an expression whose names are places of `named`.
    ///
    /// A name means the expression at its place. Names that refer to one another are followed as
    /// deep as there are names, which is as far as any go that don't come back to themselves.
    pub fn new<B: Builder>(
        alloc: Global,
        builder: &mut B,
        expr: &Expr,
        named: &[Expr],
    ) -> Result<Filter, BuildRefusal>
        ensures ok { IfOk result (λ filter. filter ≡ decision_of named.now expr.now) }
        ensures valid { IfOk result (λ _. AreValid (patterns_of named.now expr.now)) }
        ensures stays { OnOk result (RefusesNone (B.state builder.old) (B.state builder.new)) }
        ensures refused { IfErr result
            (RefusesExpr (B.state builder.old) (B.state builder.new) named.now expr.now) }
        ensures only { OnlyBuilds (B.state builder.old) (B.state builder.new) }
    {
        match made(alloc, builder, expr, named) {
            Err(refusal) => Err(refusal),
            Ok(work) => Ok(Filter {
                nodes: work.nodes,
                start: work.last,
                room: TextRoom::new(alloc),
            }),
        }
    }

    /// Whether the message passes.
    pub fn holds(&mut self, message: &Message) -> Result<bool, AllocError>
        ensures value { IfOk result (λ b. b ≡ decides self.old message.now) }
        ensures same { self.new ≡ self.old }
    {
        decided(&mut self.nodes, self.start, &mut self.room, message)
    }

    /// An equal one, with caches of its own.
    pub fn share(&self, alloc: Global) -> Result<Filter, AllocError>
        ensures { IfOk result (λ filter. filter ≡ self.now) }
    {
        Ok(Filter {
            nodes: shared(alloc, &self.nodes)?,
            start: self.start,
            room: TextRoom::new(alloc),
        })
    }
}
