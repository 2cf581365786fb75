ghost use Rattle.seg_tree.specs.Adopted.{TreesDiffer};
ghost use Rattle.seg_tree.specs.Grown.{FittedTreesGrow, TreesGrow};

/// Two trees never have the same segments and the same readings.
pub fn trees_differ()
    ensures { TreesDiffer }
{}

/// What a tree is to which readings are added: a tree of all readings, and the fitted one where it was fitted.
pub fn trees_grow()
    ensures trees { TreesGrow }
    ensures fitted { FittedTreesGrow }
{}
