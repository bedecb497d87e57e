// Laws. The functions here do nothing: their contracts are laws.
ghost use Rattle.std.specs.Prelude.{◌≡◌};
ghost use Rattle.sg_parse_expr.specs.declared.tree.Call.{Call};
ghost use Rattle.sg_driver.specs.declared.defaults.Defaults.{Defaults};
ghost use Rattle.sg_destination.specs.declared.outlet.DestinationDriver.{DestinationDriver};
ghost use Rattle.sg_destination.specs.Templates.{Texts};
ghost use Rattle.sg_destination.specs.Outlets.{IsDestination};

/// With the same defaults and templates the options of a driver make one driver of a destination.
pub fn destinations_are_one()
    ensures { (defaults : Defaults) (texts : Texts) (call : Call) (a b : DestinationDriver)
        → IsDestination defaults texts call a → IsDestination defaults texts call b → a ≡ b }
{}
