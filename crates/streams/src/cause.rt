// Why the system turned something down.
ghost use Rattle.std.specs.Prelude.{◌≡◌};
ghost use Rattle.streams.specs.Causes.{cause_text};

use std::io::ErrorKind;

/// The cause in words that end a sentence. A kind that is none of these has none of its own.
pub const fn cause(kind: ErrorKind) -> &'static str
    ensures value { result.now ≡ cause_text kind }
{
    match kind {
        ErrorKind::NotFound => "no such file or directory",
        ErrorKind::PermissionDenied => "permission denied",
        ErrorKind::BrokenPipe => "broken pipe",
        ErrorKind::WouldBlock => "not ready",
        ErrorKind::NotADirectory => "not a directory",
        ErrorKind::IsADirectory => "is a directory",
        ErrorKind::FilesystemLoop => "too many levels of symbolic links",
        ErrorKind::StaleNetworkFileHandle => "stale file handle",
        ErrorKind::InvalidInput => "invalid argument",
        ErrorKind::InvalidData => "not UTF-8",
        ErrorKind::TimedOut => "timed out",
        ErrorKind::WriteZero => "nothing more is taken",
        ErrorKind::StorageFull => "no space left on device",
        ErrorKind::QuotaExceeded => "disk quota exceeded",
        ErrorKind::FileTooLarge => "file too large",
        ErrorKind::ResourceBusy => "device or resource busy",
        ErrorKind::InvalidFilename => "file name too long",
        ErrorKind::ConnectionReset => "connection reset",
        ErrorKind::Interrupted => "interrupted",
        ErrorKind::Unsupported => "not supported",
        _ => "the system gives another reason",
    }
}
