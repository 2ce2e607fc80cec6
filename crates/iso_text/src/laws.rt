// What the definition of a file settles, for any lines.
ghost use Rattle.iso_text.specs.FileLaws.{FilesAreUnique, CausesAreUnique, FilesHaveNoCause};

/// Lines are at most one file, have at most one cause of bad text, and are no file where they have
/// one.
pub fn law_of_files()
    ensures file { FilesAreUnique }
    ensures cause { CausesAreUnique }
    ensures apart { FilesHaveNoCause }
{}
