// What holds of faults with their places. The functions here do nothing: their contracts are laws.
ghost use Rattle.std.specs.Prelude.{◌≡◌, ◌↔◌, ◌⊎◌, ◌<◌, List, ◌++◌, Option, None};
ghost use Rattle.sg_fault.specs.declared.placed.Placed.{Placed};
ghost use Rattle.sg_fault.specs.Faults.{number, rank, earlier, least};

/// A fault ranks below another one exactly where it stands at an earlier token, or at the same token
/// and its kind has the lower number.
pub fn earlier_is_by_place()
    ensures { (p q : Placed) → rank p < rank q ↔
        ((p.line.at < q.line.at) ⊎ ((p.line.at ≡ q.line.at) × (number p.kind < number q.kind))) }
{}

/// The first of two lists of faults together is the earlier one of the first of each, and it doesn't
/// matter which two of three are compared first.
pub fn least_of_parts()
    ensures parts { (ps qs : List Placed) → least (ps ++ qs) ≡ earlier (least ps) (least qs) }
    ensures grouped { (p q r : Option Placed) → earlier (earlier p q) r ≡ earlier p (earlier q r) }
    ensures alone { (p : Option Placed) → earlier p None ≡ p }
{}
