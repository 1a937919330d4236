// Laws of the plays of an interface. The functions do nothing.
ghost use Rattle.interface_policy.specs.Laws.{LoansReachTheLast, PathsReachTheRoot, PlaysKeepPromises, PoliciesAreLawful, QueueClassesAreHeld};
ghost use Rattle.interface_policy.specs.Laws.{QueueClassesAreNamed, SlopesTellZeros, ZerosGiveNothing};

/// The policy of each interface of a configuration is lawful, the classes that hold packets are its own and have names, and each play
/// of it keeps what it promises: of HFSC that the link never idles where no class has an upper limit, and the due moments where the
/// real-time curves fit the link; of CBQ the cap on a class that does not borrow.
#[tactic(auto, using(crate::proofs::Promised::policies_are_lawful, crate::proofs::Promised::plays_keep_promises, crate::proofs::Held::class_held, crate::proofs::Named::class_named))]
pub fn interfaces_keep_their_promises()
    ensures lawful { PoliciesAreLawful }
    ensures held { QueueClassesAreHeld }
    ensures named { QueueClassesAreNamed }
    ensures promises { PlaysKeepPromises }
{}

/// In each interface of a configuration CBQ's walks over 8 levels leave out nothing: the one from a class reaches the root, and the one
/// over the classes that may lend to it reaches the last that does.
#[tactic(auto, using(crate::proofs::EightDeep::paths_are_whole, crate::proofs::EightDeep::loans_are_whole))]
pub fn walks_are_whole()
    ensures paths { PathsReachTheRoot }
    ensures lenders { LoansReachTheLast }
{}

/// A real-time curve of a configuration counts as none exactly where it is 0 at every time. Its slopes tell that of every curve whose
/// slopes are one where it has no first piece, as `Curve::make` leaves it.
#[tactic(auto, using(crate::proofs::Zeros::told_by_amounts, crate::proofs::Zeros::zeros_give_nothing))]
pub fn zeros_give_nothing()
    ensures curves { SlopesTellZeros }
    ensures classes { ZerosGiveNothing }
{}
