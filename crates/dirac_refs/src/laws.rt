ghost use Rattle.dirac_refs.specs.Delivery.{LeastLeavesFirst};
ghost use Rattle.dirac_refs.specs.References.{RefsAreFew};

/// A law of the definitions: the list of references never has more than eight pictures.
pub fn refs_are_few()
    ensures { RefsAreFew }
{}

/// A law of the definitions: of the waiting pictures the one at the least place leaves first.
pub fn least_leaves_first()
    ensures { LeastLeavesFirst }
{}
