// Laws about the definitions, each the contract of a function that does nothing.
ghost use Rattle.pkg_meta.specs.Laws.{HasOneRefusal, MetaReadsBack, ReadingExcludesRefusal};

/// Bytes have at most one reason to be refused as metadata, and none where they are metadata. So
/// each refusal comes exactly where its reason holds.
pub fn reasons_exclude()
    ensures one { HasOneRefusal }
    ensures none { ReadingExcludesRefusal }
{}

/// What metadata prints as, where it is no longer than metadata may be, reads back as the metadata
/// with the version's full form as its text.
pub fn printed_reads_back()
    ensures { MetaReadsBack }
{}
