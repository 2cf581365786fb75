ghost use Rattle.segment.specs.Growth.{FewAreMade, NoneAreMade};

/// How many nodes an append makes: none for no reading, else two for each block that is begun, and some for the levels.
pub fn few_nodes_are_made()
    ensures few { FewAreMade }
    ensures none { NoneAreMade }
{}
