// What holds of all reports. The function here does nothing: its contract is a law.
ghost use Rattle.sg_report.specs.Sums.{SumsUp};

/// Each source driver has one line, in the order of their numbers, with the sums over its inlets, and
/// 2^64 - 1 where a sum is greater.
pub fn drivers_are_summed()
    ensures { SumsUp }
{}
