// A law of the definitions, the contract of a call without a body.
ghost use Rattle.fib_frames.specs.Frames.{FrameFilesAreReadBack};

/// A frame file is a capture that isn't cut. Its packets are those that left, in their order, each the flow that it was: by destination and by hash.
pub fn frame_files_are_read_back()
    ensures { FrameFilesAreReadBack }
{}
