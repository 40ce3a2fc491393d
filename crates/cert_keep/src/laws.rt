//! Laws of what is read.
ghost use Rattle.cert_keep.specs.Rebuilt.{LinesBuildBack};

/// The lines of a good certificate build it back.
pub fn lines_build_back()
    ensures { LinesBuildBack }
{}
