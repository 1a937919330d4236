// What CBQ keeps of its classes at first.
ghost use Rattle.std.specs.Prelude.{◌≡◌, ◌≤◌, ◌^◌, All, IfOk, length};
ghost use Rattle.cbq_sharing.specs.Fresh.{HasEarlierParents, IsClass, fresh, fresh_estimate};

use crate::fixed::fixed_of;
use crate::sharing::Shares;
use cbq_estimator::Estimator;
use cbq_model::CbqClass;
use play_base::NoMemory;
use std::alloc::Global;

// The estimator of a class that has sent nothing.
fn estimator_of(class: &CbqClass) -> Estimator
    requires class { IsClass class.now }
    ensures { result ≡ fresh_estimate class.now }
{
    Estimator::new(class.rate, class.maxburst, class.packetsize)
}

impl Shares {
    /// What CBQ keeps of at most 256 classes that have sent nothing, on a link of `rate` bits per second, 1,000 to 10^12. `NoMemory`
    /// comes only when memory runs out.
    pub fn build(alloc: Global, classes: &[CbqClass], rate: u64) -> Result<Shares, NoMemory>
        requires least { 1000 ≤ rate }
        requires most { rate ≤ 10 ^ 12 }
        requires few { length classes.now ≤ 256 }
        requires parents { HasEarlierParents classes.now }
        requires classes { All IsClass classes.now }
        ensures { IfOk result (λ s. s ≡ fresh rate classes.now) }
    {
        let mut estimators = Vec::new(alloc);
        let mut fixed = Vec::new(alloc);
        for class in classes {
            estimators.push(estimator_of(class))?;
            fixed.push(fixed_of(classes, class, rate))?;
        }
        let credits = vec![in alloc; 0; classes.len()]?;
        let cursors = vec![in alloc; 0; 8]?;
        let classes = Vec::from_slice(alloc, classes)?;
        Ok(Shares {
            rate,
            classes,
            estimators,
            fixed,
            credits,
            cursors,
            ended: 0,
        })
    }
}
