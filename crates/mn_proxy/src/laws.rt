ghost use Rattle.mn_proxy.specs.LeafReads.{ReadsTakeOneCall};

/// A law, proved of definitions: the minitransaction that reads a place makes one call, an Exec at
/// its node; once that is Done it is committed, with the bytes as read.
pub fn reads_take_one_call()
    ensures { ReadsTakeOneCall }
{}
