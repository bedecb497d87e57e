// Pipes, each of which refers to others by their places.

use sg_filter::Filter;
use sg_parsers::ParserRule;
use sg_rewrite::Rewrite;

/// A statement or channel: where its elements begin, and its flags.
#[derive(Clone, Copy, PartialEq, Eq, Drop)]
pub struct Branch {
    pub start: u32,
    pub is_final: bool,
    pub fallback: bool,
    pub flow: bool,
    pub drop_unmatched: bool,
}

/// A condition, and where the elements begin that a message goes to where it holds.
#[derive(Drop)]
pub struct Test {
    pub filter: Filter,
    pub start: u32,
}

/// An element of a list, and the place of the one behind it. A reference is the place of a pipe in the
/// table, and is below the pipe's own place.
pub enum Pipe {
    /// The end of a list of elements.
    End,
    /// Stops a message for which it doesn't hold.
    Filter {
        filter: Filter,
        next: u32,
    },
    Rewrite {
        condition: Option<Filter>,
        rewrite: Rewrite,
        next: u32,
    },
    /// Sets what it reads in the message. It stops a message whose text it refuses.
    Parse {
        rule: ParserRule,
        next: u32,
    },
    /// Gives the message to each of these destinations, by their numbers.
    Deliver {
        drivers: Vec<u32>,
        next: u32,
    },
    /// Offers the message to its channels. What comes out of them goes on.
    Junction {
        channels: Vec<Branch>,
        next: u32,
    },
    /// The first branch whose condition holds, else the other one. Without it the message goes on.
    If {
        tests: Vec<Test>,
        other: Option<u32>,
        next: u32,
    },
    /// The end of a list of elements with embedded statements behind it.
    Embedded {
        logs: Vec<Branch>,
    },
}

impl Drop for Pipe {
    fn drop(self) {
        match self {
            Pipe::End => {}
            Pipe::Filter {
                filter: _filter,
                next: _next,
            } => {}
            Pipe::Rewrite {
                condition: _condition,
                rewrite: _rewrite,
                next: _next,
            } => {}
            Pipe::Parse {
                rule: _rule,
                next: _next,
            } => {}
            Pipe::Deliver {
                drivers: _drivers,
                next: _next,
            } => {}
            Pipe::Junction {
                channels: _channels,
                next: _next,
            } => {}
            Pipe::If {
                tests: _tests,
                other: _other,
                next: _next,
            } => {}
            Pipe::Embedded { logs: _logs } => {}
        }
    }
}

/// A top-level statement, and the numbers of the inlets that it names.
#[derive(Drop)]
pub struct Top {
    pub sources: Vec<u32>,
    pub catchall: bool,
    pub branch: Branch,
}
