// Whether the destinations that a table names are there.
ghost use Rattle.std.specs.Prelude.{◌≡◌, true, length};
ghost use Rattle.sg_tree.specs.Laws.{TopsStayWithin};
ghost use Rattle.sg_table.specs.Forest.{forest_of};
ghost use Rattle.sg_pipes.specs.Named.{are_there, names_there, pipes_name_there};

use sg_table::{Pipe, Table};

fn are_there(drivers: &[u32], dests: usize) -> bool
    ensures { result ≡ are_there dests drivers.now }
{
    for driver in drivers {
        if *driver as usize >= dests {
            return false;
        }
    }
    true
}

fn names_there(pipe: &Pipe, dests: usize) -> bool
    ensures { result ≡ names_there dests pipe.now }
{
    match pipe {
        Pipe::Deliver { drivers, .. } => are_there(drivers, dests),
        _ => true,
    }
}

fn pipes_name_there(pipes: &[Pipe], dests: usize) -> bool
    ensures { result ≡ pipes_name_there dests pipes.now }
{
    for pipe in pipes {
        if !names_there(pipe, dests) {
            return false;
        }
    }
    true
}

/// Whether each destination that the pipes of the table name is there.
pub fn names_within(table: &Table) -> bool
    ensures is { result ≡ pipes_name_there (length table.now.dests.items) table.now.pipes.items }
    ensures within { result ≡ true
        → TopsStayWithin (forest_of table.now).dests (forest_of table.now).tops }
{
    pipes_name_there(&table.pipes, table.dests.len())
}
