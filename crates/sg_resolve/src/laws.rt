// Laws of options. The functions here do nothing: their contracts are laws.
ghost use Rattle.std.specs.Prelude.{◌++◌};
ghost use Rattle.sg_destination.specs.Buffers.{buffer_checks, memory_checks};
ghost use Rattle.sg_destination.specs.Destinations.{destination_checks, file_checks, host_checks};
ghost use Rattle.sg_destination.specs.Outlets.{IsDestination};
ghost use Rattle.sg_destination.specs.Templates.{Texts};
ghost use Rattle.sg_destination.specs.declared.outlet.DestinationDriver.{DestinationDriver};
ghost use Rattle.sg_driver.specs.Defaults.{global_checks};
ghost use Rattle.sg_driver.specs.declared.defaults.Defaults.{Defaults};
ghost use Rattle.sg_parse_expr.specs.declared.tree.Call.{Call};
ghost use Rattle.sg_parse_obj.specs.Tables.{destination, disk, framed, global, listener, sender, source, writer};
ghost use Rattle.sg_resolve.specs.Options.{AreAlikeDrivers, AreChecked, AreCheckedOrSkipped, AreOptionsRead, AreReadOrSkipped, destination_words, disk_words, framed_words, global_words, listener_words, sender_words, settled_words, source_words, writer_words};
ghost use Rattle.sg_source.specs.Inlets.{IsSourceDriver};
ghost use Rattle.sg_source.specs.Sources.{listener_checks, source_checks};
ghost use Rattle.sg_source.specs.declared.inlet.SourceDriver.{SourceDriver};

/// Each option that the grammar has at a driver of a source is read there, or takes one value alone, and each that
/// is read is one of the grammar's. With the same of these a driver is read as the same.
pub fn source_options_are_read()
    ensures source { AreOptionsRead source source_words }
    ensures listener { AreOptionsRead listener (settled_words ++ listener_words) }
    ensures alone { (defaults : Defaults) (a b : Call) (driver : SourceDriver)
        → AreAlikeDrivers (listener_words ++ source_words) a b → IsSourceDriver defaults a driver
        → IsSourceDriver defaults b driver }
{}

/// The same of destinations.
pub fn destination_options_are_read()
    ensures destination { AreOptionsRead destination destination_words }
    ensures writer { AreOptionsRead writer writer_words }
    ensures sender { AreOptionsRead sender (settled_words ++ sender_words) }
    ensures framed { AreOptionsRead framed framed_words }
    ensures alone { (defaults : Defaults) (texts : Texts) (a b : Call) (driver : DestinationDriver)
        → AreAlikeDrivers (writer_words ++ (sender_words ++ destination_words)) a b
        → IsDestination defaults texts a driver → IsDestination defaults texts b driver }
{}

/// The same of disk-buffers and of the global options, whose tables have those without effect too.
pub fn other_options_are_read()
    ensures disk { AreReadOrSkipped disk disk_words }
    ensures global { AreReadOrSkipped global global_words }
{}

/// Each option whose value has a range or a form is checked, and each that is checked is one of the grammar's.
pub fn options_are_checked()
    ensures source { AreChecked source source_checks }
    ensures listener { AreChecked listener listener_checks }
    ensures destination { AreChecked destination destination_checks }
    ensures hosts { AreChecked sender host_checks }
    ensures files { AreChecked writer file_checks }
    ensures others { AreCheckedOrSkipped disk (buffer_checks ++ memory_checks)
        × AreCheckedOrSkipped global global_checks }
{}
