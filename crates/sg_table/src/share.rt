// A second table of the same log paths.
ghost use Rattle.std.specs.Prelude.{◌≡◌, map, IfOk};
ghost use Rattle.sg_table.specs.Forest.{forest_of, statement_at};
ghost use Rattle.sg_table.specs.Shared.{AreSame, IsSame};
ghost use Rattle.sg_table.specs.Table.{StepsByPlace};

use crate::copying::{copied_dests, copied_inlets, copied_numbers};
use crate::{Branch, Pipe, Table, Test, Top};
use sg_filter::Filter;
use std::alloc::{AllocError, Global};

fn shared_branches(alloc: Global, branches: &[Branch]) -> Result<Vec<Branch>, AllocError>
    ensures { IfOk result (λ copies. copies.items ≡ branches.now) }
{
    Vec::from_slice(alloc, branches)
}

fn shared_test(alloc: Global, test: &Test) -> Result<Test, AllocError>
    ensures { IfOk result (λ copy. copy ≡ test.now) }
{
    Ok(Test {
        filter: test.filter.share(alloc)?,
        start: test.start,
    })
}

fn shared_tests(alloc: Global, tests: &[Test]) -> Result<Vec<Test>, AllocError>
    ensures { IfOk result (λ copies. copies.items ≡ tests.now) }
{
    let mut copies = Vec::new(alloc);
    for test in tests {
        copies.push(shared_test(alloc, test)?)?;
    }
    Ok(copies)
}

fn shared_condition(alloc: Global, condition: &Option<Filter>) -> Result<Option<Filter>, AllocError>
    ensures { IfOk result (λ copy. copy ≡ condition.now) }
{
    match condition {
        Some(filter) => Ok(Some(filter.share(alloc)?)),
        None => Ok(None),
    }
}

fn shared_pipe(alloc: Global, pipe: &Pipe) -> Result<Pipe, AllocError>
    ensures { IfOk result (IsSame pipe.now) }
{
    match pipe {
        Pipe::End => Ok(Pipe::End),
        Pipe::Filter { filter, next } => Ok(Pipe::Filter {
            filter: filter.share(alloc)?,
            next: *next,
        }),
        Pipe::Rewrite {
            condition,
            rewrite,
            next,
        } => Ok(Pipe::Rewrite {
            condition: shared_condition(alloc, condition)?,
            rewrite: rewrite.share(alloc)?,
            next: *next,
        }),
        Pipe::Parse { rule, next } => Ok(Pipe::Parse {
            rule: rule.share(alloc)?,
            next: *next,
        }),
        Pipe::Deliver { drivers, next } => Ok(Pipe::Deliver {
            drivers: copied_numbers(alloc, drivers)?,
            next: *next,
        }),
        Pipe::Junction { channels, next } => Ok(Pipe::Junction {
            channels: shared_branches(alloc, channels)?,
            next: *next,
        }),
        Pipe::If { tests, other, next } => Ok(Pipe::If {
            tests: shared_tests(alloc, tests)?,
            other: *other,
            next: *next,
        }),
        Pipe::Embedded { logs } => Ok(Pipe::Embedded {
            logs: shared_branches(alloc, logs)?,
        }),
    }
}

fn shared_pipes(alloc: Global, pipes: &[Pipe]) -> Result<Vec<Pipe>, AllocError>
    ensures { IfOk result (λ copies. AreSame pipes.now copies.items) }
{
    let mut copies = Vec::new(alloc);
    for pipe in pipes {
        copies.push(shared_pipe(alloc, pipe)?)?;
    }
    Ok(copies)
}

fn shared_top(alloc: Global, top: &Top) -> Result<Top, AllocError>
    ensures { IfOk result (λ copy. (at : StepsByPlace)
        → statement_at at copy ≡ statement_at at top.now) }
{
    Ok(Top {
        sources: copied_numbers(alloc, &top.sources)?,
        catchall: top.catchall,
        branch: top.branch,
    })
}

fn shared_tops(alloc: Global, tops: &[Top]) -> Result<Vec<Top>, AllocError>
    ensures { IfOk result (λ copies. (at : StepsByPlace)
        → map (statement_at at) copies.items ≡ map (statement_at at) tops.now) }
{
    let mut copies = Vec::new(alloc);
    for top in tops {
        copies.push(shared_top(alloc, top)?)?;
    }
    Ok(copies)
}

impl Table {
    /// A table of the same log paths, whose patterns have caches of their own.
    pub fn share(&self, alloc: Global) -> Result<Table, AllocError>
        ensures { IfOk result (λ table. forest_of table ≡ forest_of self.now) }
    {
        Ok(Table {
            inlets: copied_inlets(alloc, &self.inlets)?,
            dests: copied_dests(alloc, &self.dests)?,
            tops: shared_tops(alloc, &self.tops)?,
            pipes: shared_pipes(alloc, &self.pipes)?,
        })
    }
}
