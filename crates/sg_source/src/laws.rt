// Laws. The functions here do nothing: their contracts are laws.
ghost use Rattle.std.specs.Prelude.{◌≡◌};
ghost use Rattle.sg_parse_expr.specs.declared.tree.Call.{Call};
ghost use Rattle.sg_driver.specs.declared.defaults.Defaults.{Defaults};
ghost use Rattle.sg_source.specs.declared.inlet.SourceDriver.{SourceDriver};
ghost use Rattle.sg_source.specs.Inlets.{IsSourceDriver};

/// With the same defaults the options of a driver make one driver of a source.
pub fn sources_are_one()
    ensures { (defaults : Defaults) (call : Call) (a b : SourceDriver)
        → IsSourceDriver defaults call a → IsSourceDriver defaults call b → a ≡ b }
{}
