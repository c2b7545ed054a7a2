// Laws of the definitions, each the contract of a call without a body.
ghost use Rattle.fib_capture.specs.Written.{WrittenFilesAreReadBack};
ghost use Rattle.fib_capture.specs.Spans.{SpansLieInFile, SpansPointToFlows};

/// A written file is read back: in either byte order and with either link, whole records give their packets in order, and a tail
/// that is no whole record is a cut at their number, exactly where it isn't empty.
pub fn written_files_are_read_back()
    ensures { WrittenFilesAreReadBack }
{}

/// A span points to its flow: the bytes there, read as an IPv4 packet, are the packet in that place of the capture.
pub fn spans_point_to_flows()
    ensures { SpansPointToFlows }
{}

/// The spans of a file's packets lie in the file, and each has room for an IPv4 header.
pub fn spans_lie_in_the_file()
    ensures { SpansLieInFile }
{}
