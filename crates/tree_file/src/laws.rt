ghost use Rattle.tree_file.specs.Laws.{UnsignedReadsBack, UnsignedWritesBack, SignedReadsBack, SignedWritesBack, RecordReadsBack, RecordWritesBack, TreeReadsBack, TreeWritesBack, TreeHasSize, RecordStands};

/// Numbers are read as they were written, and bytes are the writing of what is read.
pub fn numbers_keep()
    ensures unsigned_read { UnsignedReadsBack }
    ensures unsigned_written { UnsignedWritesBack }
    ensures signed_read { SignedReadsBack }
    ensures signed_written { SignedWritesBack }
{}

/// Records are read as they were written, and every record is the writing of what is read.
pub fn records_keep()
    ensures read { RecordReadsBack }
    ensures written { RecordWritesBack }
{}

/// Trees are read as they were written, and bytes of a tree's length are the writing of what is read.
pub fn trees_keep()
    ensures read { TreeReadsBack }
    ensures written { TreeWritesBack }
    ensures size { TreeHasSize }
    ensures stands { RecordStands }
{}
