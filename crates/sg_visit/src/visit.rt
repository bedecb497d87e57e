// Who is told what stands in statements.
ghost use Rattle.std.specs.Prelude.{OnOk};
ghost use Rattle.sg_visit.specs.Leaves.{Leaf};

use sg_parse_base::Spot;
use sg_parse_expr::RawExpr;
use sg_parse_obj::Object;
use sg_parse_path::{RawRef, ReferenceKind};

/// A visitor: a walk over statements tells it each leaf, in the order of the text, and what it found so far.
pub trait Visit {
    /// What it found so far.
    type State;

    type Error;

    // With a leaf more, what was found so far becomes this.
    ghost step: { Self → Self.State → Leaf → Self.State → Type 0 };

    /// A statement other than a log statement.
    fn object(&self, state: &mut Self::State, object: &Object) -> Result<(), Self::Error>
        ensures { OnOk result (step self.now state.old (Leaf.object object.now) state.new) };

    /// The word of an element that refers to a source.
    fn source(&self, state: &mut Self::State, word: &Spot) -> Result<(), Self::Error>
        ensures { OnOk result (step self.now state.old (Leaf.source word.now) state.new) };

    /// What an element refers to.
    fn reference(
        &self,
        state: &mut Self::State,
        kind: ReferenceKind,
        reference: &RawRef,
    ) -> Result<(), Self::Error>
        ensures { OnOk result
            (step self.now state.old (Leaf.reference kind reference.now) state.new) };

    /// The condition of a branch.
    fn test(&self, state: &mut Self::State, test: &RawExpr) -> Result<(), Self::Error>
        ensures { OnOk result (step self.now state.old (Leaf.test test.now) state.new) };

    /// The flags of a log statement, an embedded one or a channel.
    fn flags(&self, state: &mut Self::State, flags: &[Spot]) -> Result<(), Self::Error>
        ensures { OnOk result (step self.now state.old (Leaf.flags flags.now) state.new) };
}
