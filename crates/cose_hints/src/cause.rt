//! What an error of a file or of a stream is, in words.

use std::io::ErrorKind;

/// What an error of the system is, in words, where it has a sense for the operator.
pub fn cause(kind: ErrorKind) -> &'static str {
    match kind {
        ErrorKind::NotFound => "there is no such file or folder",
        ErrorKind::NotADirectory => "a part of its path is no folder",
        ErrorKind::PermissionDenied => "there is no right to it",
        ErrorKind::AlreadyExists => "it exists already, and no file is overwritten",
        ErrorKind::IsADirectory => "it is a folder",
        ErrorKind::InvalidFilename => "its name is too long",
        ErrorKind::FilesystemLoop => "its links lead to no file",
        ErrorKind::ReadOnlyFilesystem => "nothing can be written there",
        ErrorKind::StorageFull | ErrorKind::QuotaExceeded => "there is no room left",
        ErrorKind::FileTooLarge => "no file may be so long",
        ErrorKind::InvalidInput =>
            "the number of its bytes is unknown (--payload-length states it)",
        ErrorKind::InvalidData => "another file took its name meanwhile",
        ErrorKind::UnexpectedEof => "it ends early",
        ErrorKind::WouldBlock => "it is set not to wait, and has no byte yet",
        ErrorKind::ConnectionReset => "the other side ended the connection",
        _ => "the system refuses it",
    }
}
