//! Laws of the reading.
ghost use Rattle.conf_tree.specs.Laws.{FaultsStand, MetersFit};

/// No continuation mends a fault: what stands behind some statements changes their first fault only where it is NoDefault.
pub fn faults_stand()
    ensures { FaultsStand }
{}

/// The meter of each class of a configuration is within its ranges: `af` is 1 to 4, rates are 1,000 to 10^12, `cir` is at most
/// `pir`, `cbs` and `pbs` are 1 to 2^30, and `ebs` is at most 2^30.
pub fn meters_fit()
    ensures { MetersFit }
{}
