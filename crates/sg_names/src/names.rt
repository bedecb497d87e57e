// All names of a configuration.
ghost use Rattle.std.specs.Prelude.{◌≡◌, ◌<◌, ◌^◌, length, IfOk};
ghost use Rattle.sg_names.specs.Registers.{names_of, place_in, repeated};

use crate::kind::NameKind;
use crate::register::{Register, registered};
use sg_fault::{Placed, earlier};
use sg_parse_text::Statement;
use std::alloc::{AllocError, Global};

/// The statements of each kind by their names.
pub struct Names {
    pub sources: Register,
    pub destinations: Register,
    pub filters: Register,
    pub rewrites: Register,
    pub parsers: Register,
    pub templates: Register,
}

impl Drop for Names {
    fn drop(self) {
        let Names {
            sources: _sources,
            destinations: _destinations,
            filters: _filters,
            rewrites: _rewrites,
            parsers: _parsers,
            templates: _templates,
        } = self;
    }
}

impl Names {
    /// The number of the first statement of a kind that has this name, among those of its kind.
    pub fn place(&self, kind: NameKind, name: &[u8]) -> Option<u32>
        ensures { result ≡ place_in self.now kind name.now }
    {
        let register = match kind {
            NameKind::Source => &self.sources,
            NameKind::Destination => &self.destinations,
            NameKind::Filter => &self.filters,
            NameKind::Rewrite => &self.rewrites,
            NameKind::Parser => &self.parsers,
            NameKind::Template => &self.templates,
        };
        register.places.get(name).copied()
    }
}

/// The names of a configuration's statements, and the first name that a statement of its kind before has too.
pub fn names_of(
    alloc: Global,
    statements: &[Statement],
) -> Result<(Names, Option<Placed>), AllocError>
    requires { length statements.now < 2 ^ 32 }
    ensures names { IfOk result (λ x. x.0 ≡ names_of statements.now) }
    ensures repeated { IfOk result (λ x. x.1 ≡ repeated statements.now) }
{
    let (sources, source) = registered(alloc, statements, NameKind::Source)?;
    let (destinations, destination) = registered(alloc, statements, NameKind::Destination)?;
    let (filters, filter) = registered(alloc, statements, NameKind::Filter)?;
    let (rewrites, rewrite) = registered(alloc, statements, NameKind::Rewrite)?;
    let (parsers, parser) = registered(alloc, statements, NameKind::Parser)?;
    let (templates, template) = registered(alloc, statements, NameKind::Template)?;
    let names = Names {
        sources,
        destinations,
        filters,
        rewrites,
        parsers,
        templates,
    };
    let ends = earlier(source, destination);
    let ways = earlier(filter, rewrite);
    let texts = earlier(parser, template);
    Ok((names, earlier(earlier(ends, ways), texts)))
}
