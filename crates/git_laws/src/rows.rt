//! Examples of the definitions, for texts and values that are written out. The contract of each function is a
//! group of rows.

ghost use Rattle.git_laws.specs.Examples.ByteRows.{EscapeSetRows, EscapedByteRows, GitByteRows, HostByteRows, NameByteRows, QuickByteRows, WhiteSpaceRows};
ghost use Rattle.git_laws.specs.Examples.OtherRows.{ExceptionRows, NoExceptionRows, SlipRows};
ghost use Rattle.git_laws.specs.Examples.GitRows.{CredentialRows, GitTextRows, GitUrlRows, NoGitRows};

/// Classes of bytes, with all their members.
fn law_bytes()
    ensures names { NameByteRows }
    ensures hosts { HostByteRows }
    ensures white_space { WhiteSpaceRows }
    ensures git { GitByteRows }
    ensures quick { QuickByteRows }
    ensures documented { EscapedByteRows }
    ensures sets { EscapeSetRows }
{}

/// Texts that Git reads, and some that it doesn't read.
fn law_git()
    ensures urls { GitUrlRows }
    ensures others { GitTextRows }
    ensures none { NoGitRows }
    ensures credentials { CredentialRows }
{}

/// Exceptions, and errors in definitions that the laws would not detect.
fn law_others()
    ensures slips { SlipRows }
    ensures inside { ExceptionRows }
    ensures outside { NoExceptionRows }
{}
