// Laws of the places of flows and of frames.
ghost use Rattle.frame_classes.specs.Laws.{FlowsHaveQueues, FramesHaveQueues, FramesKeepTheirLength, PrecedencesAreThree};

use conf_laws::interfaces_have_queues;

/// In each interface of every configuration the class of each flow is one that holds packets, in HFSC a leaf.
pub fn flows_have_classes()
    ensures { FlowsHaveQueues }
{
    interfaces_have_queues();
}

/// In each interface of every configuration a frame belongs to a class that holds packets, in HFSC a leaf. Its precedence is 0, 1 or
/// 2, and it departs as long as it came.
pub fn frames_have_classes()
    ensures class { FramesHaveQueues }
    ensures prec { PrecedencesAreThree }
    ensures length { FramesKeepTheirLength }
{
    flows_have_classes();
}
